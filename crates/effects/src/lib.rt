// What the commands of a run sheet do to a player and its sink, and the worked examples.
#![tactic(auto)]

pub mod performing;
pub mod worked;

pub use performing::perform;
