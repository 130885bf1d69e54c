// The player.
ghost use Rattle.std.specs.Prelude.{length};
ghost use Rattle.player.specs.Rows.{items};
ghost use Rattle.player.specs.Sound.{Sound};

use crate::rows::Rows;
use event::{Mode, StreamCount, Time};
use tables::{Kept, UsedId};

pub mod drawing;
pub mod evicting;
pub mod following;
pub mod making;
pub mod playing;
pub mod reading;

// The two tables that a player borrows, of sizes that it takes.
#[derive(Drop)]
pub struct Tables<'a> {
    kept: &'a mut [Kept],
    used: &'a mut [UsedId],
}

// What a player holds besides its tables: how many streams there are, the playhead, a mode for each stream, and how many kept events have an id.
#[derive(Clone, Copy)]
struct Head {
    streams: StreamCount,
    playhead: Time,
    modes: [Mode; 32],
    kept_ids: usize,
}

// A player: it keeps events in order of start, and the ids that it told on start.
#[derive(Drop)]
pub struct Player<'a> {
    head: Head,
    kept: Rows<'a, Kept>,
    used: Rows<'a, UsedId>,
    ghost sound: { Sound head (items kept) (items used) (length used.slots.now) },
}
