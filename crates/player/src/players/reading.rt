// What a player shows of itself.
ghost use Rattle.std.specs.Prelude.{◌≡◌, length};
ghost use Rattle.player.specs.Players.{state};

use super::Player;
use event::Time;

impl Player<'_> {
    // How far it has played.
    pub fn playhead(&self) -> Time
        ensures { result ≡ (state self.now).playhead }
    {
        self.head.playhead
    }

    // How many events it keeps.
    pub fn kept_count(&self) -> usize
        ensures { result ≡ length (state self.now).kept }
    {
        self.kept.len
    }
}
