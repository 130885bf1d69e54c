// Sheets: `ES` records open event streams, and `EV` records give their events.
use catalogue::Catalogue;
use media::{Reader, Timescale};

mod events;
pub mod feed;
mod records;
mod turns;

// What the latest `ES` record says: how its events count time, and the number of their stream, if it is listed.
#[derive(Clone, Copy)]
pub struct EventStream {
    pub timescale: Timescale,
    pub offset: u64,
    pub stream: Option<u8>,
}

// The rules of a sheet's records, whose streams a catalogue lists; what the records in front say is which event stream governs.
#[derive(Clone, Copy)]
pub struct Sheet<'a, 'c> {
    catalogue: &'c Catalogue<'a>,
}

// A feed of a sheet's events.
#[derive(Clone, Copy)]
pub struct SheetReader<'a, 'c> {
    reader: Reader<'a, Sheet<'a, 'c>, Option<EventStream>>,
}
