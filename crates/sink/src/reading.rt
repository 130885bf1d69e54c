// Reading a byte log back into a lent list.
ghost use Rattle.std.specs.Prelude.{◌≡◌, ◌≤◌, true, length, is_ok};
ghost use Rattle.event.specs.Fronts.{front};
ghost use Rattle.event.specs.Numbers.{answer};
ghost use Rattle.sink.specs.Reading.{dispatches, pieces, read_into, read_log, verdict};

use crate::records::methods::{SIZE, read_record};
use event::{Defect, Dispatch, Refusal};

// That each record can be read, or what is wrong with the first that cannot.
fn check(bytes: &[u8]) -> Result<(), Defect>
    ensures { result ≡ verdict (read_log bytes.now) }
{
    for piece in bytes.chunks(SIZE) {
        read_record(piece)?;
    }
    Ok(())
}

// Puts the dispatches of the records at the front of a list.
fn fill(bytes: &[u8], list: &mut [Dispatch])
    requires read { is_ok (read_log bytes.now) ≡ true }
    requires room { pieces bytes.now ≤ length list.old }
    ensures { list.new ≡ front (dispatches (read_log bytes.now)) list.old }
{
    for (n, piece) in bytes.chunks(SIZE).enumerate() {
        if let Ok(dispatch) = read_record(piece) {
            list[n] = dispatch;
        }
    }
}

// Reads the records of a log, in turn, into the front of a list, and answers their number. A refusal leaves the list as it was.
pub fn read_log(bytes: &[u8], list: &mut [Dispatch]) -> Result<usize, Refusal>
    ensures { (answer result, list.new) ≡ read_into bytes.now list.old }
{
    let count = bytes.len().div_ceil(SIZE);
    check(bytes)?;
    if count > list.len() {
        return Err(Refusal::BufferShort);
    }
    fill(bytes, list);
    Ok(count)
}
