// Readers under one name: from bytes of the media buffer to the catalogue of streams and to the records of a feed.
#![tactic(auto)]

pub use catalogue::{Catalogue, Pair, catalogues, pairs};
pub use media::{Stretch, Times, Timescale, stretches, times, timescales};
pub use message::{message, messages};
pub use segment::{SegmentReader, Timing, segments, timings};
pub use sheet::{SheetReader, sheets};
