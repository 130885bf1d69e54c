// What it means to be a feed.
ghost use Rattle.std.specs.Prelude.{◌≡◌};
ghost use Rattle.event.specs.Feeds.{Coming, seen, rest};

use crate::events::Event;
use crate::faults::Fault;

// A feed means the records still to come and an ending: clean, or a fault.
pub trait Feed {
    ghost coming: { Self → Coming };

    // The first record, none at a clean end, or the fault that the feed stops at; nothing changes.
    fn look(&self) -> Result<Option<Event>, Fault>
        ensures { result ≡ seen (coming self.now) };

    // Removes the first record, if there is one.
    fn step(&mut self)
        ensures { coming self.new ≡ rest (coming self.old) };
}
