// A time: whole milliseconds, none past the latest one.
ghost use Rattle.std.specs.Prelude.{◌≤◌};

pub mod methods;

// A start, an arrival, a duration, a position or a playhead.
#[derive(Clone, Copy, PartialEq, Eq, PartialOrd, Ord, Debug)]
pub struct Time {
    ms: u64,
    ghost bounded: { ms ≤ 4000000000000 },
}
