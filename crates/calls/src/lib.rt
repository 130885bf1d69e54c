// The player's calls: their answers, and in specs/ what each of them does and what holds of whole runs.
#![tactic(auto)]

pub mod answers;

pub use answers::{Drawn, Played};
