// The times that a segment is drawn with.

// How the times of a segment count: its earliest presentation time, offset and media timescale, and its inband offset and that one's timescale.
#[derive(Clone, Copy, PartialEq, Eq, Debug)]
pub struct Times {
    pub earliest: u64,
    pub offset: u64,
    pub media_ticks: u32,
    pub inband: u64,
    pub inband_ticks: u32,
}
