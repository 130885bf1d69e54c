// What a draw and a play answer.
use event::Time;

// How a draw went: the feed's clean end, or which line fits its record.
#[derive(Clone, Copy, PartialEq, Eq, Debug)]
pub enum Drawn {
    End,
    Passed,
    Dispatched,
    Over,
    Repeat,
    Kept,
}

// How far a play came, and how many it told.
#[derive(Clone, Copy, PartialEq, Eq, Debug)]
pub struct Played {
    pub told: usize,
    pub playhead: Time,
}
