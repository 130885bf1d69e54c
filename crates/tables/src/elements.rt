// What the player's two tables hold.
use event::{Message, Span, Time};

pub mod methods;

// An event that is kept until it is due: one with a stream.
#[derive(Clone, Copy, PartialEq, Eq, Debug)]
pub struct Kept {
    pub stream: u8,
    pub id: Option<u32>,
    pub span: Span,
    pub arrival: Time,
    pub message: Message,
}

// An id that was dispatched on start, in its stream.
#[derive(Clone, Copy, PartialEq, Eq, PartialOrd, Ord, Debug)]
pub struct UsedId {
    pub stream: u8,
    pub id: u32,
}
