// Making a player.
ghost use Rattle.std.specs.Prelude.{◌≡◌, true, false, [], length, MatchResult};
ghost use Rattle.event.specs.Numbers.{refusal};
ghost use Rattle.event.specs.Numbers.Answer.{refused};
ghost use Rattle.event.specs.Sinks.{Held};
ghost use Rattle.calls.specs.Once.{NoneKeptActive, OnceWhileFollowed};
ghost use Rattle.calls.specs.Runs.{world};
ghost use Rattle.calls.specs.State.{fresh, tables_fit};
ghost use Rattle.player.specs.Players.{state};
ghost use Rattle.calls.specs.Stops.{StopsChangeNothing};
ghost use Rattle.calls.specs.Tally.{TallyAddsUp};

use super::{Head, Player, Tables};
use crate::rows::Rows;
use event::{Mode, Refusal, StreamCount, Time};
use tables::{Kept, UsedId};

impl<'a> Tables<'a> {
    // The tables, where each has a size that a player takes: 1 to 256 events, 1 to 1,024 ids.
    pub fn new(kept: &'a mut [Kept], used: &'a mut [UsedId]) -> Result<Tables<'a>, Refusal>
        ensures cases { MatchResult result (λ t. (tables_fit (length kept.old) (length used.old) ≡ true) × (t.kept.now ≡ kept.old) × (t.used.now ≡ used.old)) (λ e. (tables_fit (length kept.old) (length used.old) ≡ false) × (refusal {X = Unit {0}} e ≡ refused 15)) }
    {
        if !(1..=256).contains(&kept.len()) || !(1..=1024).contains(&used.len()) {
            return Err(Refusal::TableSize);
        }
        Ok(Tables { kept, used })
    }
}

impl<'a> Player<'a> {
    // A fresh player: playhead 0, every stream off, nothing kept and no id used; and what then holds of every list of calls on it, with a sink that was told nothing.
    pub fn new(tables: Tables<'a>, streams: StreamCount) -> Player<'a>
        ensures value { state result ≡ fresh streams.count (length tables.entry.kept.now) (length tables.entry.used.now) }
        ensures slots { (result.kept.slots.now ≡ tables.entry.kept.now) × (result.used.slots.now ≡ tables.entry.used.now) }
        ensures stops_change_nothing { (h : Held) → h.told ≡ [] → StopsChangeNothing (world (state result) h) }
        ensures once_while_followed { (h : Held) → h.told ≡ [] → OnceWhileFollowed (world (state result) h) }
        ensures none_kept_active { (h : Held) → h.told ≡ [] → NoneKeptActive (world (state result) h) }
        ensures tally_adds_up { (h : Held) → h.told ≡ [] → TallyAddsUp (world (state result) h) }
    {
        let Tables { kept, used } = tables;
        Player {
            head: Head {
                streams,
                playhead: Time::ZERO,
                modes: [Mode::Off; 32],
                kept_ids: 0,
            },
            kept: Rows {
                slots: kept,
                len: 0,
            },
            used: Rows {
                slots: used,
                len: 0,
            },
        }
    }
}
