// The calls on a player as values, and what they say.
use crate::feeds::One;
use event::{
    Defect, Dispatch, Event, Fault, Layer, Message, Mode, Refusal, Sink, Span, Time, Trigger,
};
use player::{Drawn, Player};

// A call; `DrawEnd` and `DrawFault` draw from a feed with no record.
#[derive(Clone, Copy)]
pub(crate) enum Call {
    Follow(u8, Mode),
    Leave(u8),
    Draw(Event),
    DrawEnd,
    DrawFault,
    Play(u64),
    Seek(u64),
    Evict(u64, u64),
}

// What a call answers, a refusal by its number.
#[derive(Clone, Copy, PartialEq, Eq, Debug)]
pub(crate) enum Said {
    Done,
    Count(usize),
    Drew(Drawn),
    Reached(usize, u64),
    Refused(u8),
    // a refused draw that stepped its feed, one that did not step it, or a fault that was not carried whole
    Wrong,
}

// The fault that `DrawFault` meets.
const FAULT: Fault = Fault {
    defect: Defect::BoxFields,
    place: 77,
    layer: Layer::Reader,
};

// A time of so many milliseconds.
pub(crate) fn time(ms: u64) -> Time {
    Time::new(ms).unwrap_or(Time::ZERO)
}

// An event of stream 0 that arrived at 0.
pub(crate) fn event(id: Option<u32>, start: u64, duration: Option<u64>) -> Event {
    Event {
        stream: Some(0),
        id,
        span: Span {
            start: time(start),
            duration: duration.map(time),
        },
        arrival: Time::ZERO,
        message: Message {
            place: 9,
            length: 4,
            base64: false,
        },
    }
}

// The same event in another stream, or in none.
pub(crate) fn in_stream(stream: Option<u8>, event: Event) -> Event {
    Event { stream, ..event }
}

// The same event with another arrival.
pub(crate) fn arrived(arrival: u64, event: Event) -> Event {
    Event {
        arrival: time(arrival),
        ..event
    }
}

// The dispatch of an event at a position.
pub(crate) fn told(position: u64, trigger: Trigger, event: Event) -> Dispatch {
    Dispatch {
        position: time(position),
        trigger,
        stream: event.stream.unwrap_or(255),
        id: event.id,
        span: event.span,
        message: event.message,
    }
}

// A dispatch that no list expects, for unused slots.
pub(crate) fn unused() -> Dispatch {
    told(0, Trigger::Receive, event(None, 0, None))
}

// Draws from a feed of at most one record, and of a fault behind it where there is one.
fn draw<S: Sink>(
    player: &mut Player,
    record: Option<Event>,
    fault: Option<Fault>,
    sink: &mut S,
) -> Said {
    let mut feed = One {
        event: record,
        fault,
    };
    match player.draw(&mut feed, sink) {
        Ok(drawn) if feed.event.is_none() => Said::Drew(drawn),
        Err(refusal) if feed.event == record => refused(refusal),
        _ => Said::Wrong,
    }
}

// A refusal by its number; a fault is the one that the feed was at.
fn refused(refusal: Refusal) -> Said {
    match refusal {
        Refusal::AtFault(fault) if fault != FAULT => Said::Wrong,
        other => Said::Refused(other.number()),
    }
}

// Makes a call.
pub(crate) fn perform<S: Sink>(player: &mut Player, call: Call, sink: &mut S) -> Said {
    match call {
        Call::Follow(stream, mode) => player
            .follow(stream, mode)
            .map_or_else(refused, |()| Said::Done),
        Call::Leave(stream) => player.leave(stream).map_or_else(refused, Said::Count),
        Call::Draw(event) => draw(player, Some(event), None, sink),
        Call::DrawEnd => draw(player, None, None, sink),
        Call::DrawFault => draw(player, None, Some(FAULT), sink),
        Call::Play(to) => player.play(to, sink).map_or_else(refused, |played| {
            Said::Reached(played.told, played.playhead.ms())
        }),
        Call::Seek(to) => player.seek(to, sink).map_or_else(refused, Said::Count),
        Call::Evict(from, to) => player.evict(from, to).map_or_else(refused, Said::Count),
    }
}
