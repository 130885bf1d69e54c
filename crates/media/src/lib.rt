// The media buffer: stretches of it, timescales and the times that count in them, and walks over the records that stand in it.
#![tactic(auto)]

pub mod readers;
pub mod stretches;
pub mod times;
pub mod timescales;
pub mod walks;

pub use readers::Reader;
pub use readers::rules::Records;
pub use stretches::{Stretch, cut};
pub use times::Times;
pub use timescales::Timescale;
pub use walks::Turn;
