// A record list: dispatches at the front of a lent slice.
ghost use Rattle.std.specs.Prelude.{◌≤◌, length};

use event::{Dispatch, Message, Span, Time, Trigger};

pub mod methods;

// What a slot of a record list holds before it is used.
pub const NO_DISPATCH: Dispatch = Dispatch {
    position: Time::ZERO,
    trigger: Trigger::Receive,
    stream: 0,
    id: None,
    span: Span {
        start: Time::ZERO,
        duration: None,
    },
    message: Message {
        place: 0,
        length: 0,
        base64: false,
    },
};

// The slots, and how many of them are used; each other slot is a free place.
#[derive(Drop)]
pub struct RecordList<'a> {
    slots: &'a mut [Dispatch],
    count: usize,
    ghost within: { count ≤ length slots.now },
}
