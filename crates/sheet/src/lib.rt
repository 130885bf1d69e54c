// The sheet reader: from `ES` and `EV` records to the events of a feed.
#![tactic(auto)]

pub mod sheets;

pub use sheets::SheetReader;
