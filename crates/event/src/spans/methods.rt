// Whether a span holds a time, or has ended before it.
ghost use Rattle.std.specs.Prelude.{◌≡◌};
ghost use Rattle.event.specs.Spans.{active, ended};

use super::Span;
use crate::times::Time;

impl Span {
    // The event has started by t and its end is not behind t.
    pub fn is_active(self, t: Time) -> bool
        ensures { result ≡ active self t.ms }
    {
        self.start <= t
            && self
                .duration
                .is_none_or(|d| t.ms() - self.start.ms() <= d.ms())
    }

    // The end is behind t.
    pub fn has_ended(self, t: Time) -> bool
        ensures { result ≡ ended self t.ms }
    {
        self.duration
            .is_some_and(|d| self.start.ms() + d.ms() < t.ms())
    }
}
