// The lines that a run reports, and their text.
#![tactic(auto)]

pub mod alone;
pub mod lines;
pub mod texts;

pub use alone::{CueLine, RefusedLine};
pub use lines::Line;
