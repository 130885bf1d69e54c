// Making a join of two feeds, looking at it and stepping it.
ghost use Rattle.std.specs.Prelude.{◌≡◌, ℕ};
ghost use Rattle.event.specs.Feeds.{Coming};
ghost use Rattle.layers.specs.Joins.{joined};
ghost use Rattle.layers.specs.Periods.{in_period};

use super::Join;
use event::{Event, Fault, Feed};

impl<F: Feed, G: Feed> Join<F, G> {
    // The first feed's records and, after its clean end, the second's. A period over it is a join of periods, and three feeds join in one way.
    pub fn new(first: F, second: G) -> Join<F, G>
        ensures coming { joined (F.Feed.coming result.first) (G.Feed.coming result.second) ≡ joined (F.Feed.coming first) (G.Feed.coming second) }
        ensures through { (start : ℕ) → in_period start (joined (F.Feed.coming result.first) (G.Feed.coming result.second)) ≡ joined (in_period start (F.Feed.coming first)) (in_period start (G.Feed.coming second)) }
        ensures chains { (third : Coming) → joined (joined (F.Feed.coming result.first) (G.Feed.coming result.second)) third ≡ joined (F.Feed.coming first) (joined (G.Feed.coming second) third) }
    {
        Join { first, second }
    }
}

impl<F: Feed, G: Feed> Feed for Join<F, G> {
    ghost coming = { λ j. joined (F.Feed.coming j.first) (G.Feed.coming j.second) };

    fn look(&self) -> Result<Option<Event>, Fault> {
        match self.first.look()? {
            None => self.second.look(),
            record => Ok(record),
        }
    }

    fn step(&mut self) {
        match self.first.look() {
            Ok(None) => self.second.step(),
            _ => self.first.step(),
        }
    }
}
