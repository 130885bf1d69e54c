// How the times of a segment count.
use event::Time;

pub mod methods;

// When the segment arrives, and its inband offset, or none where that is past the latest time.
#[derive(Clone, Copy)]
pub struct Timing {
    arrival: Time,
    inband: Option<Time>,
}

// The versions of emsg boxes that give records.
#[derive(Clone, Copy)]
pub enum Version {
    Zero,
    One,
}
