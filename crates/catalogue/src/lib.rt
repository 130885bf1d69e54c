// The catalogue of streams, each named by a pair of scheme and value.
#![tactic(auto)]

pub mod catalogues;
pub mod pairs;

pub use catalogues::Catalogue;
pub use pairs::Pair;
