// Making a time and reading it.
ghost use Rattle.std.specs.Prelude.{◌≡◌, ◌+◌, ◌-◌, if◌then◌else◌, Some, None, nat_le};
ghost use Rattle.event.specs.Times.{latest, time};

use super::Time;

impl Time {
    // The start of the presentation.
    pub const ZERO: Time = Time { ms: 0 };

    // The latest time, in milliseconds.
    pub const LATEST: u64 = 4_000_000_000_000;

    // The time of so many milliseconds, unless it is past the latest time.
    pub fn new(ms: u64) -> Option<Time>
        ensures { result ≡ (if nat_le ms latest then Some (time ms) else None) }
    {
        if ms <= Self::LATEST {
            Some(Time { ms })
        } else {
            None
        }
    }

    // Its milliseconds.
    pub fn ms(self) -> u64
        ensures { result ≡ self.ms }
    {
        self.ms
    }

    // The time so much later, unless it is past the latest time.
    pub fn plus(self, more: u64) -> Option<Time>
        ensures { result ≡ (if nat_le (self.ms + more) latest then Some (time (self.ms + more)) else None) }
    {
        Time::new(self.ms.checked_add(more)?)
    }

    // One millisecond earlier; the start of the presentation stays.
    pub fn before(self) -> Time
        ensures { result ≡ time (self.ms - 1) }
    {
        Time {
            ms: self.ms.saturating_sub(1),
        }
    }
}
