// Layers: feeds that are made over any feed.
#![tactic(auto)]

pub mod joins;
pub mod periods;

pub use joins::Join;
pub use periods::Period;
