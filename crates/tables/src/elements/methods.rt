// How kept events and used ids are made, ordered and told.
ghost use Rattle.std.specs.Prelude.{◌≡◌};
ghost use Rattle.tables.specs.Elements.{dispatched, earlier, id_before, kept_of, name, named};
ghost use Rattle.std.proofs.Common.{rules};

use super::{Kept, UsedId};
use crate::orders::Ordered;
use event::{Dispatch, Event, Time, Trigger};

impl Kept {
    // An empty slot of a table that is lent to a player.
    pub const EMPTY: Kept = Kept {
        stream: 0,
        id: None,
        span: event::Span {
            start: Time::ZERO,
            duration: None,
        },
        arrival: Time::ZERO,
        message: event::Message {
            place: 0,
            length: 0,
            base64: false,
        },
    };

    // The event as one of a stream.
    pub fn of(stream: u8, event: Event) -> Kept
        ensures { result ≡ kept_of stream event }
    {
        Kept {
            stream,
            id: event.id,
            span: event.span,
            arrival: event.arrival,
            message: event.message,
        }
    }

    // The dispatch of it at a position.
    pub fn dispatch(self, position: Time, trigger: Trigger) -> Dispatch
        ensures { result ≡ dispatched position trigger self }
    {
        Dispatch {
            position,
            trigger,
            stream: self.stream,
            id: self.id,
            span: self.span,
            message: self.message,
        }
    }

    // Its id in its stream, if it has one.
    pub fn name(&self) -> Option<UsedId>
        ensures { result ≡ name self.now }
    {
        self.id.map(|id| UsedId {
            stream: self.stream,
            id,
        })
    }

    // Whether it is an event of this stream with this id.
    pub fn is_named(&self, name: UsedId) -> bool
        ensures { result ≡ named name self.now }
    {
        self.id == Some(name.id) && self.stream == name.stream
    }
}

impl UsedId {
    // An empty slot of a table that is lent to a player.
    pub const EMPTY: UsedId = UsedId { stream: 0, id: 0 };
}

impl Ordered for Kept {
    ghost before = { earlier };

    ghost opposite = { Prim.search rules };

    ghost further = { Prim.search rules };

    fn is_before(self, other: Kept) -> bool {
        (self.span.start, self.arrival) < (other.span.start, other.arrival)
    }
}

impl Ordered for UsedId {
    ghost before = { id_before };

    ghost opposite = { Prim.search rules };

    ghost further = { Prim.search rules };

    fn is_before(self, other: UsedId) -> bool {
        self < other
    }
}
