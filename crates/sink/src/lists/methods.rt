// Making a record list, telling it, and reading what it was told.
ghost use Rattle.std.specs.Prelude.{◌≡◌, [], length};
ghost use Rattle.event.specs.Fronts.{front};
ghost use Rattle.event.specs.Numbers.{answer};
ghost use Rattle.event.specs.Sinks.{tells};
ghost use Rattle.sink.specs.Lists.{held_in};

use super::RecordList;
use event::{Dispatch, Refusal, Sink};

impl<'a> RecordList<'a> {
    // A list that was told nothing: each slot is a free place.
    pub fn new(slots: &'a mut [Dispatch]) -> RecordList<'a>
        ensures held { held_in result ≡ record { told = []; free = length slots.old } }
        ensures slots { result.slots.now ≡ slots.old }
        ensures lender { result.slots.ghost_name ≡ slots.entry.ghost_name }
    {
        RecordList { slots, count: 0 }
    }

    // What it was told, the oldest first.
    pub fn told(&self) -> &[Dispatch]
        ensures { result.now ≡ (held_in self.now).told }
    {
        &self.slots[..self.count]
    }
}

impl<'a> Sink for RecordList<'a> {
    ghost held = { held_in };

    fn free_places(&self) -> usize {
        self.slots.len() - self.count
    }

    fn tell(&mut self, dispatch: Dispatch) -> Result<(), Refusal>
        ensures tells { (answer result, held_in self.new) ≡ tells dispatch (held_in self.old) }
        ensures same { (held_in self.old).free ≡ 0 → self.new ≡ self.old }
        ensures slots { self.new.slots.now ≡ front (held_in self.new).told self.old.slots.now }
        ensures lender { self.new.slots.ghost_name ≡ self.old.slots.ghost_name }
    {
        if self.count < self.slots.len() {
            self.slots[self.count] = dispatch;
            self.count += 1;
            Ok(())
        } else {
            Err(Refusal::SinkFull)
        }
    }
}
