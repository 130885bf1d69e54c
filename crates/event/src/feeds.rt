// A feed: records one after the other, and then an ending.
pub mod meaning;

pub use meaning::Feed;
