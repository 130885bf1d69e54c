// The vocabulary: times, events, dispatches, modes, refusals, and what a feed and a sink are.
#![tactic(auto)]

pub mod chunks;
pub mod dispatches;
pub mod events;
pub mod faults;
pub mod feeds;
pub mod modes;
pub mod refusals;
pub mod sinks;
pub mod spans;
pub mod streams;
pub mod times;

pub use chunks::chunk_at;
pub use dispatches::Dispatch;
pub use events::{Event, Message};
pub use faults::{Defect, Fault, Layer};
pub use feeds::Feed;
pub use modes::{Mode, Trigger};
pub use refusals::Refusal;
pub use sinks::Sink;
pub use spans::Span;
pub use streams::StreamCount;
pub use times::Time;
