// Run sheets: the catalogue at the front, and the commands behind it.
#![tactic(auto)]

pub mod commands;
pub mod sheets;

pub use commands::Command;
pub use sheets::RunSheet;
