// What a player tells a sink.
use crate::events::Message;
use crate::modes::Trigger;
use crate::spans::Span;
use crate::times::Time;

// A position, what triggered the telling, and an event with a stream, less its arrival.
#[derive(Clone, Copy, PartialEq, Eq, Debug)]
pub struct Dispatch {
    pub position: Time,
    pub trigger: Trigger,
    pub stream: u8,
    pub id: Option<u32>,
    pub span: Span,
    pub message: Message,
}
