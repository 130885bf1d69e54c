// A whole run of a run sheet: the lines that it reports, one by one.
#![tactic(auto)]

pub mod openings;
pub mod runs;

pub use openings::Opening;
pub use runs::Run;
