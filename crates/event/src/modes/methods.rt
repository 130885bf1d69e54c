// The numbers of modes.
ghost use Rattle.std.specs.Prelude.{◌≡◌};
ghost use Rattle.event.specs.Modes.{mode_of};

use super::Mode;

impl From<u8> for Mode {
    ghost from_gives = { λ n m. m ≡ mode_of n };

    // The mode of a number: 1 on receive, 2 on start, any other off.
    fn from(n: u8) -> Mode {
        match n {
            1 => Mode::OnReceive,
            2 => Mode::OnStart,
            _ => Mode::Off,
        }
    }
}
