// The lent bytes of a byte log.
ghost use Rattle.std.specs.Prelude.{◌≡◌, ◌+◌, ◌*◌, ◌≤◌, true, [], ◌∷◌, ◌++◌, length, is_ok, Ok};
ghost use Rattle.event.specs.Fronts.{front};
ghost use Rattle.sink.specs.Readable.{used};
ghost use Rattle.sink.specs.Reading.{dispatches, read_log};
ghost use Rattle.sink.specs.Records.{laid, record_of};

use crate::records::methods::{SIZE, written};
use event::Dispatch;

// The bytes, and how many records stand at their front.
#[derive(Drop)]
pub(crate) struct Page<'a> {
    pub(crate) bytes: &'a mut [u8],
    pub(crate) count: usize,
}

impl<'a> Page<'a> {
    // The bytes of the records.
    pub(crate) fn used(&self) -> &[u8]
        requires { 40 * self.now.count ≤ length self.now.bytes.now }
        ensures { result.now ≡ used self.now.count self.now.bytes.now }
    {
        let bytes = &*self.bytes;
        &bytes[..SIZE * self.count]
    }

    // Puts the record of a dispatch behind the others.
    pub(crate) fn put(&mut self, dispatch: Dispatch)
        requires room { 40 * self.old.count + 40 ≤ length self.old.bytes.now }
        requires readable { is_ok (read_log (used self.old.count self.old.bytes.now)) ≡ true }
        ensures bytes { self.new.bytes.now ≡ front (used self.old.count self.old.bytes.now ++ laid (record_of dispatch)) self.old.bytes.now }
        ensures len { length self.new.bytes.now ≡ length self.old.bytes.now }
        ensures count { self.new.count ≡ self.old.count + 1 }
        ensures reads { read_log (used self.new.count self.new.bytes.now) ≡ Ok (dispatches (read_log (used self.old.count self.old.bytes.now)) ++ dispatch ∷ []) }
        ensures lender { self.new.bytes.ghost_name ≡ self.old.bytes.ghost_name }
    {
        let at = SIZE * self.count;
        self.bytes[at..at + SIZE].copy_from_slice(&written(dispatch));
        self.count += 1;
    }
}
