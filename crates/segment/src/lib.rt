// The segment reader: from emsg boxes to the events of a feed.
#![tactic(auto)]

pub mod segments;
pub mod timings;

pub use segments::SegmentReader;
pub use timings::Timing;
