// Drawing events from a feed.
ghost use Rattle.std.specs.Prelude.{◌≡◌, ◌<◌, false, is_ok};
ghost use Rattle.event.specs.Numbers.{answer};
ghost use Rattle.event.specs.Sinks.{Held, more};
ghost use Rattle.calls.specs.Draws.{draws, keeps, known, no_id_place, on_start, receives, telling, tells_now};
ghost use Rattle.player.specs.Players.{Lent, state};
ghost use Rattle.calls.specs.State.{State};
ghost use Rattle.tables.specs.Elements.{active_at};

use super::Player;
use calls::Drawn;
use event::{Dispatch, Event, Feed, Mode, Refusal, Sink, Trigger};
use tables::Kept;

// Tells a sink that has a free place.
pub(crate) fn tell_free<S: Sink>(sink: &mut S, dispatch: Dispatch)
    requires { 0 < (S.held sink.old).free }
    ensures { S.held sink.new ≡ more (S.held sink.old) dispatch }
{
    let _ = sink.tell(dispatch);
}

// Tells a sink an event that was received, where it has a free place.
pub(crate) fn tell_received<S: Sink>(dispatch: Dispatch, sink: &mut S) -> Result<Drawn, Refusal>
    ensures after { (w : State) → (answer result, w, S.held sink.new) ≡ telling dispatch w w (S.held sink.old) }
    ensures same { is_ok result ≡ false → sink.new ≡ sink.old }
{
    if sink.free_places() == 0 {
        return Err(Refusal::NoFreePlace);
    }
    tell_free(sink, dispatch);
    Ok(Drawn::Dispatched)
}

impl Player<'_> {
    // Whether the event's id is used or kept in its stream.
    pub(crate) fn knows(&self, event: Kept) -> bool
        ensures { result ≡ known event (state self.now) }
    {
        let Some(name) = event.name() else {
            return false;
        };
        self.used.holds(name) || self.kept.has_named(name)
    }

    // Whether the event has an id and no place is left for it.
    pub(crate) fn lacks_id_place(&self, event: Kept) -> bool
        ensures { result ≡ no_id_place event (state self.now) }
    {
        event.id.is_some() && self.used.len + self.head.kept_ids >= self.used.slots.len()
    }

    // Keeps an event at its place, where there is one for it and for its id.
    pub(crate) fn keep(&mut self, event: Kept) -> Result<Drawn, Refusal>
        requires unknown { known event (state self.old) ≡ false }
        requires later { active_at (state self.old).playhead.ms event ≡ false }
        ensures after { (h : Held) → (answer result, state self.new, h) ≡ keeps event (state self.old) h }
        ensures lent { Lent self.old self.new }
        ensures same { is_ok result ≡ false → self.new ≡ self.old }
    {
        if self.kept.len >= self.kept.slots.len() {
            return Err(Refusal::NoEventPlace);
        }
        if self.lacks_id_place(event) {
            return Err(Refusal::NoIdPlace);
        }
        self.kept.insert(event);
        self.head.kept_ids += usize::from(event.id.is_some());
        Ok(Drawn::Kept)
    }

    // Tells an active event at the playhead, and its id becomes used.
    pub(crate) fn tell_now<S: Sink>(&mut self, event: Kept, sink: &mut S) -> Result<Drawn, Refusal>
        requires { known event (state self.old) ≡ false }
        ensures after { (answer result, state self.new, S.held sink.new) ≡ tells_now event (state self.old) (S.held sink.old) }
        ensures lent { Lent self.old self.new }
        ensures same { is_ok result ≡ false → (self.new ≡ self.old) × (sink.new ≡ sink.old) }
    {
        if self.lacks_id_place(event) {
            return Err(Refusal::NoIdPlace);
        }
        if sink.free_places() == 0 {
            return Err(Refusal::NoFreePlace);
        }
        tell_free(sink, event.dispatch(self.head.playhead, Trigger::Start));
        self.used.mark(event);
        Ok(Drawn::Dispatched)
    }

    // What becomes of an event of a stream that is followed on start.
    pub(crate) fn receive_on_start<S: Sink>(
        &mut self,
        event: Kept,
        sink: &mut S,
    ) -> Result<Drawn, Refusal>
        ensures after { (answer result, state self.new, S.held sink.new) ≡ on_start event (state self.old) (S.held sink.old) }
        ensures lent { Lent self.old self.new }
        ensures same { is_ok result ≡ false → (self.new ≡ self.old) × (sink.new ≡ sink.old) }
    {
        if event.span.has_ended(self.head.playhead) {
            return Ok(Drawn::Over);
        }
        if self.knows(event) {
            return Ok(Drawn::Repeat);
        }
        if event.span.is_active(self.head.playhead) {
            self.tell_now(event, sink)
        } else {
            self.keep(event)
        }
    }

    // What becomes of a record: the first fitting line.
    pub(crate) fn receive<S: Sink>(&mut self, event: Event, sink: &mut S) -> Result<Drawn, Refusal>
        ensures after { (answer result, state self.new, S.held sink.new) ≡ receives event (state self.old) (S.held sink.old) }
        ensures lent { Lent self.old self.new }
        ensures same { is_ok result ≡ false → (self.new ≡ self.old) × (sink.new ≡ sink.old) }
    {
        let Some(stream) = event.stream else {
            return Ok(Drawn::Passed);
        };
        let kept = Kept::of(stream, event);
        match self.mode(stream) {
            Mode::Off => Ok(Drawn::Passed),
            Mode::OnReceive => tell_received(
                kept.dispatch(self.head.playhead, Trigger::Receive),
                sink,
            ),
            Mode::OnStart => self.receive_on_start(kept, sink),
        }
    }

    // Looks at a feed, and steps it past a record that is not refused.
    pub fn draw<F: Feed, S: Sink>(&mut self, feed: &mut F, sink: &mut S) -> Result<Drawn, Refusal>
        ensures after { (answer result, state self.new, S.held sink.new, F.coming feed.new) ≡ draws (F.coming feed.old) (state self.old) (S.held sink.old) }
        ensures lent { Lent self.old self.new }
        ensures same { is_ok result ≡ false → (self.new ≡ self.old) × (sink.new ≡ sink.old) × (feed.new ≡ feed.old) }
    {
        let Some(event) = feed.look()? else {
            return Ok(Drawn::End);
        };
        let drawn = self.receive(event, sink)?;
        feed.step();
        Ok(drawn)
    }
}
