// What a feed stops at, and where.
pub mod methods;

// What is wrong with bytes or with the times they give.
#[derive(Clone, Copy, PartialEq, Eq, Debug)]
pub enum Defect {
    // a timescale outside 1 to 10,000,000
    Timescale,
    // a box whose head is cut, or whose size is below its head or past the stretch
    BoxSize,
    // emsg fields that do not fit their box, or a string that is not closed
    BoxFields,
    // a time below zero
    BelowZero,
    // a time past the latest one
    PastLatest,
    // an unknown mark, or a record that is cut
    CutRecord,
    // an event before the first event stream
    NoEventStream,
    // a flag bit with no meaning, or an unflagged field that is not 0
    Flags,
    // a message that is flagged as base64 and is not
    NotBase64,
}

// Which layer of a feed raised a fault.
#[derive(Clone, Copy, PartialEq, Eq, Debug)]
pub enum Layer {
    Reader,
    Period,
}

// What is wrong, the place in the media buffer, and the layer that raised it.
#[derive(Clone, Copy, PartialEq, Eq, Debug)]
pub struct Fault {
    pub defect: Defect,
    pub place: u32,
    pub layer: Layer,
}
