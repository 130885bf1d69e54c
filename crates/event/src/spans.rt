// When an event runs: its start and, where known, how long.
use crate::times::Time;

pub mod methods;

// A start and a duration, or none where the end is unknown.
#[derive(Clone, Copy, PartialEq, Eq, Debug)]
pub struct Span {
    pub start: Time,
    pub duration: Option<Time>,
}
