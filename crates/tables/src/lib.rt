// What the player's two tables hold: kept events and used ids, and their orders.
#![tactic(auto)]

pub mod elements;
pub mod orders;

pub use elements::{Kept, UsedId};
