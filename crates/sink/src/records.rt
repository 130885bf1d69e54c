// One record of a byte log.
pub mod methods;

// The fields as they stand in the bytes; what a dispatch has not is 0.
#[derive(Clone, Copy)]
pub(crate) struct Record {
    flags: u8,
    stream: u8,
    position: u64,
    start: u64,
    duration: u64,
    id: u32,
    place: u32,
    length: u32,
}
