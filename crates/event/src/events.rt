// An event as a feed gives it.
use crate::spans::Span;
use crate::times::Time;

// Where an event's message stands in the media buffer, and whether it is base64 text there.
#[derive(Clone, Copy, PartialEq, Eq, Debug)]
pub struct Message {
    pub place: u32,
    pub length: u32,
    pub base64: bool,
}

// An event record: its stream's number and its id, each where it has one, when it runs, when it arrived, its message.
#[derive(Clone, Copy, PartialEq, Eq, Debug)]
pub struct Event {
    pub stream: Option<u8>,
    pub id: Option<u32>,
    pub span: Span,
    pub arrival: Time,
    pub message: Message,
}
