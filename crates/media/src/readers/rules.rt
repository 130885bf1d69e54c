// What a reader knows of the records that it reads.
ghost use Rattle.std.specs.Prelude.{◌≡◌, ℕ, List};
ghost use Rattle.event.specs.declared.events.Event.{Event};
ghost use Rattle.event.specs.declared.faults.Fault.{Fault};
ghost use Rattle.media.specs.declared.walks.Turn.{Turn};
ghost use Rattle.media.specs.Insides.{Within};
ghost use Rattle.media.specs.Stretches.{left};
ghost use Rattle.media.specs.Walks.{Forward};

use crate::stretches::Stretch;
use crate::walks::Turn;
use event::{Event, Fault};

// The rules of a kind of records: what the turn at each place finds, where the records in front say S of those behind them.
pub trait Records<S> {
    ghost turns: { Self → S → ℕ → List ℕ → Turn Event Fault S };

    // The turn at a place of a stretch.
    fn turn(&self, state: S, stretch: Stretch, place: u32) -> Turn<Event, Fault, S>
        ensures { result ≡ turns self.now state place (left stretch.entry place) };

    // Each turn goes forward, within the bytes that are left.
    ghost forward: { (rules : Self) → Forward (turns rules) };

    // The message of each event stands within its record.
    ghost within: { (rules : Self) (state : S) (place : ℕ) (bytes : List ℕ) → Within place (turns rules state place bytes) };
}
