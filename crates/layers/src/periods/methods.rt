// Making a period over a feed, looking at it and stepping it.
ghost use Rattle.std.specs.Prelude.{◌≡◌, ℕ, ◌+◌, if◌then◌else◌, Some, None};
ghost use Rattle.event.specs.Feeds.{rest};
ghost use Rattle.layers.specs.Periods.{fits, moved, in_period, removes};

use super::Period;
use event::{Defect, Event, Fault, Feed, Layer, Span};

impl<F: Feed> Period<F> {
    // The feed's records, each later by `start` milliseconds. A period over it is one period of both starts together.
    pub fn new(feed: F, start: u64) -> Period<F>
        ensures coming { in_period result.start (F.Feed.coming result.feed) ≡ in_period start (F.Feed.coming feed) }
        ensures still { start ≡ 0 → in_period result.start (F.Feed.coming result.feed) ≡ F.Feed.coming feed }
        ensures adds { (by : ℕ) → in_period by (in_period result.start (F.Feed.coming result.feed)) ≡ in_period (start + by) (F.Feed.coming feed) }
    {
        Period { feed, start }
    }
}

// The event with its start and its arrival so much later, unless one of them passes the latest time.
fn later(event: Event, by: u64) -> Option<Event>
    ensures { result ≡ (if fits by event then Some (moved by event) else None) }
{
    let start = event.span.start.plus(by)?;
    let arrival = event.arrival.plus(by)?;
    let span = Span {
        start,
        ..event.span
    };
    Some(Event {
        span,
        arrival,
        ..event
    })
}

impl<F: Feed> Feed for Period<F> {
    ghost coming = { λ p. in_period p.start (F.Feed.coming p.feed) };

    fn look(&self) -> Result<Option<Event>, Fault> {
        let Some(event) = self.feed.look()? else {
            return Ok(None);
        };
        let moved = later(event, self.start).ok_or(Fault {
            defect: Defect::PastLatest,
            place: event.message.place,
            layer: Layer::Period,
        })?;
        Ok(Some(moved))
    }

    fn step(&mut self)
        ensures rest { in_period self.new.start (F.Feed.coming self.new.feed) ≡ rest (in_period self.old.start (F.Feed.coming self.old.feed)) }
        ensures below { F.Feed.coming self.new.feed ≡ removes self.old.start (F.Feed.coming self.old.feed) }
        ensures start { self.new.start ≡ self.old.start }
    {
        if let Ok(Some(event)) = self.feed.look() {
            if later(event, self.start).is_some() {
                self.feed.step();
            }
        }
    }
}
