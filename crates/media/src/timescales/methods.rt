// Making a timescale, and times from ticks.
ghost use Rattle.std.specs.Prelude.{◌≡◌, if◌then◌else◌, Some, None, nat_le};
ghost use Rattle.event.specs.Times.{latest, time};
ghost use Rattle.media.specs.Timescales.{is_timescale, millis, timescale};

use super::Timescale;
use event::Time;

impl Timescale {
    // The most ticks that a second has.
    pub const MOST: u32 = 10_000_000;

    // The timescale of so many ticks, unless that is none.
    pub fn new(ticks: u32) -> Option<Timescale>
        ensures { result ≡ (if is_timescale ticks then Some (timescale ticks) else None) }
    {
        if 1 <= ticks && ticks <= Self::MOST {
            Some(Timescale { ticks })
        } else {
            None
        }
    }

    // The time of so many ticks, its milliseconds rounded down, unless it is past the latest time.
    pub fn time(self, n: u64) -> Option<Time>
        ensures { result ≡ (if nat_le (millis n self.ticks) latest then Some (time (millis n self.ticks)) else None) }
    {
        let ticks = u64::from(self.ticks);
        let seconds = n / ticks;
        if seconds > Time::LATEST / 1000 {
            return None;
        }
        Time::new(seconds * 1000 + n % ticks * 1000 / ticks)
    }
}
