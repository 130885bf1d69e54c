// Making a byte log, telling it, and lending what it has written.
ghost use Rattle.std.specs.Prelude.{◌≡◌, ◌/◌, ◌≤◌, List, [], ◌++◌, length, if◌then◌else◌, Ok, nat_lt};
ghost use Rattle.event.specs.Fronts.{front};
ghost use Rattle.event.specs.Numbers.{answer};
ghost use Rattle.event.specs.Numbers.Answer.{did};
ghost use Rattle.event.specs.Sinks.{tells};
ghost use Rattle.event.specs.declared.dispatches.Dispatch.{Dispatch};
ghost use Rattle.sink.specs.Logs.{used_of, held_in_log};
ghost use Rattle.sink.specs.Reading.{read_into, read_log};
ghost use Rattle.sink.specs.Records.{laid, record_of};

use super::ByteLog;
use super::pages::Page;
use crate::records::methods::SIZE;
use event::{Dispatch, Refusal, Sink};

impl<'a> ByteLog<'a> {
    // A log that was told nothing: each 40 bytes are a free place.
    #[tactic(auto, unfolding(crate::specs::Reading::read_up_to))]
    pub fn new(bytes: &'a mut [u8]) -> ByteLog<'a>
        ensures held { held_in_log result ≡ record { told = []; free = length bytes.old / 40 } }
        ensures bytes { result.page.bytes.now ≡ bytes.old }
        ensures lender { result.page.bytes.ghost_name ≡ bytes.entry.ghost_name }
    {
        ByteLog {
            page: Page { bytes, count: 0 },
        }
    }

    // What it has written: reading it gives back what the log was told, at the front of any list that is long enough.
    pub fn used(&self) -> &[u8]
        ensures bytes { result.now ≡ used_of self.now }
        ensures reads { read_log result.now ≡ Ok (held_in_log self.now).told }
        ensures back { (list : List Dispatch) → length (held_in_log self.now).told ≤ length list → read_into result.now list ≡ (did (length (held_in_log self.now).told), front (held_in_log self.now).told list) }
    {
        self.page.used()
    }
}

impl<'a> Sink for ByteLog<'a> {
    ghost held = { held_in_log };

    fn free_places(&self) -> usize {
        (self.page.bytes.len() - SIZE * self.page.count) / SIZE
    }

    fn tell(&mut self, dispatch: Dispatch) -> Result<(), Refusal>
        ensures tells { (answer result, held_in_log self.new) ≡ tells dispatch (held_in_log self.old) }
        ensures same { (held_in_log self.old).free ≡ 0 → self.new ≡ self.old }
        ensures bytes { self.new.page.bytes.now ≡ (if nat_lt 0 (held_in_log self.old).free then front (used_of self.old ++ laid (record_of dispatch)) self.old.page.bytes.now else self.old.page.bytes.now) }
        ensures lender { self.new.page.bytes.ghost_name ≡ self.old.page.bytes.ghost_name }
    {
        if self.free_places() == 0 {
            return Err(Refusal::SinkFull);
        }
        self.page.put(dispatch);
        Ok(())
    }
}
