// Following streams.
ghost use Rattle.std.specs.Prelude.{◌≡◌, false, is_ok};
ghost use Rattle.event.specs.Numbers.{answer};
ghost use Rattle.calls.specs.Follows.{follows, mode_of};
ghost use Rattle.calls.specs.Leaves.{leaves};
ghost use Rattle.player.specs.Players.{Lent, state};

use super::Player;
use event::{Mode, Refusal};

impl Player<'_> {
    // The mode of a stream; off outside the catalogue.
    pub fn mode(&self, stream: u8) -> Mode
        ensures { result ≡ mode_of (state self.now) stream }
    {
        if stream < self.head.streams.count() {
            self.head.modes[usize::from(stream)]
        } else {
            Mode::Off
        }
    }

    // Sets a stream's mode, unless it is followed already.
    pub fn follow(&mut self, stream: u8, mode: Mode) -> Result<(), Refusal>
        ensures after { (answer result, state self.new) ≡ follows stream mode (state self.old) }
        ensures lent { Lent self.old self.new }
        ensures same { is_ok result ≡ false → self.new ≡ self.old }
    {
        if stream >= self.head.streams.count() {
            return Err(Refusal::UnknownStream);
        }
        if mode == Mode::Off {
            return Err(Refusal::NotAFollowMode);
        }
        if self.mode(stream) != Mode::Off {
            return Err(Refusal::AlreadyFollowed);
        }
        self.head.modes[usize::from(stream)] = mode;
        Ok(())
    }

    // Sets a stream's mode to off, and forgets its kept events and used ids.
    pub fn leave(&mut self, stream: u8) -> Result<usize, Refusal>
        ensures after { (answer result, state self.new) ≡ leaves stream (state self.old) }
        ensures lent { Lent self.old self.new }
        ensures same { is_ok result ≡ false → self.new ≡ self.old }
    {
        if stream >= self.head.streams.count() {
            return Err(Refusal::UnknownStream);
        }
        if self.mode(stream) == Mode::Off {
            return Err(Refusal::NotFollowed);
        }
        let forgotten = self.forget(|event| event.stream == stream);
        self.used.remove(|name| name.stream == stream);
        self.head.modes[usize::from(stream)] = Mode::Off;
        Ok(forgotten)
    }
}
