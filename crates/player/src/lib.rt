// The player: kept events and used ids in ordered tables, and the calls that play them.
#![tactic(auto)]

pub mod players;
pub mod rows;
pub mod runs;

pub use calls::{Drawn, Played};
pub use players::{Player, Tables};
pub use tables::{Kept, UsedId};
