// Sinks over lent memory: the record list and the byte log.
#![tactic(auto)]

pub mod lists;
pub mod logs;
pub mod reading;
pub mod records;

pub use lists::{NO_DISPATCH, RecordList};
pub use logs::ByteLog;
pub use reading::read_log;
