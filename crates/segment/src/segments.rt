// Segments: a row of boxes, of which emsg boxes give events.
use crate::timings::Timing;
use catalogue::Catalogue;
use media::Reader;

mod boxes;
mod emsgs;
mod events;
pub mod feed;
mod turns;

// The rules of a segment's boxes: how its times count, and the catalogue that lists its streams. No box says anything of those behind it.
#[derive(Clone, Copy)]
pub struct Segment<'a, 'c> {
    timing: Timing,
    catalogue: &'c Catalogue<'a>,
}

// A feed of a segment's events.
#[derive(Clone, Copy)]
pub struct SegmentReader<'a, 'c> {
    reader: Reader<'a, Segment<'a, 'c>, ()>,
}
