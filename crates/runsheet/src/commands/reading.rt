// Reading a command from the bytes of its record.
ghost use Rattle.std.specs.Prelude.{◌≡◌, length, if◌then◌else◌, Some, None, nat_le};
ghost use Rattle.event.specs.BigEndian.{num64};
ghost use Rattle.runsheet.specs.Commands.{Goes, command, draw_segment, draw_sheet, evict, segment_length, segment_times};

use super::Command;
use event::{Mode, chunk_at};
use media::Times;

impl Command {
    // The command of the record at the front of the bytes, which stand at a place, and the record's length; none where the mark is unknown or the record is cut.
    pub fn read(place: u32, bytes: &[u8]) -> Option<(Command, u32)>
        ensures value { result ≡ command place bytes.now }
        ensures length { Goes result (length bytes.now) }
    {
        match bytes {
            [b'F', b'O', stream, mode, ..] => {
                let (stream, mode) = (*stream, Mode::from(*mode));
                Some((Command::Follow { stream, mode }, 4))
            }
            [b'L', b'V', stream, ..] => Some((Command::Leave { stream: *stream }, 3)),
            [b'P', b'L', ..] => time(bytes).map(|to| (Command::Play { to }, 10)),
            [b'S', b'K', ..] => time(bytes).map(|to| (Command::Seek { to }, 10)),
            [b'E', b'X', ..] => evict(bytes),
            [b'M', b'P', ..] => draw_sheet(place, bytes),
            [b'S', b'G', ..] => draw_segment(place, bytes),
            _ => None,
        }
    }
}

// The time behind the mark of a record, unless it is cut.
fn time(bytes: &[u8]) -> Option<u64>
    ensures { result ≡ (if nat_le 10 (length bytes.now) then Some (num64 bytes.now 2) else None) }
{
    chunk_at(bytes, 2).map(|time| u64::from_be_bytes(*time))
}

// `EX`: two times.
fn evict(bytes: &[u8]) -> Option<(Command, u32)>
    ensures value { result ≡ evict bytes.now }
    ensures length { Goes result (length bytes.now) }
{
    let from = u64::from_be_bytes(*chunk_at(bytes, 2)?);
    let to = u64::from_be_bytes(*chunk_at(bytes, 10)?);
    Some((Command::Evict { from, to }, 18))
}

// `MP`: a period start, a length, and a sheet of that length.
fn draw_sheet(place: u32, bytes: &[u8]) -> Option<(Command, u32)>
    ensures value { result ≡ draw_sheet place bytes.now }
    ensures length { Goes result (length bytes.now) }
{
    let start = u64::from_be_bytes(*chunk_at(bytes, 2)?);
    let length = u16::from_be_bytes(*chunk_at(bytes, 10)?);
    if bytes.len() < 12 + usize::from(length) {
        return None;
    }
    let from = place as usize + 12;
    let to = from + usize::from(length);
    Some((
        Command::DrawSheet { start, from, to },
        12 + u32::from(length),
    ))
}

// `SG`: a period start, the times of a segment, a length, and a segment of that length.
fn draw_segment(place: u32, bytes: &[u8]) -> Option<(Command, u32)>
    ensures value { result ≡ draw_segment place bytes.now }
    ensures length { Goes result (length bytes.now) }
{
    let start = u64::from_be_bytes(*chunk_at(bytes, 2)?);
    let fields = &bytes[10..];
    let times = segment_times(fields)?;
    let length = segment_length(fields)?;
    let from = place as usize + 44;
    let to = from + usize::from(length);
    Some((
        Command::DrawSegment {
            start,
            times,
            from,
            to,
        },
        44 + u32::from(length),
    ))
}

// The times of a segment at the front of the bytes.
fn segment_times(bytes: &[u8]) -> Option<Times>
    ensures { result ≡ segment_times bytes.now }
{
    Some(Times {
        earliest: u64::from_be_bytes(*chunk_at(bytes, 0)?),
        offset: u64::from_be_bytes(*chunk_at(bytes, 8)?),
        media_ticks: u32::from_be_bytes(*chunk_at(bytes, 16)?),
        inband: u64::from_be_bytes(*chunk_at(bytes, 20)?),
        inband_ticks: u32::from_be_bytes(*chunk_at(bytes, 28)?),
    })
}

// The length of a segment that stands behind its times and this length, unless it is cut.
fn segment_length(bytes: &[u8]) -> Option<u16>
    ensures { result ≡ segment_length bytes.now }
{
    let length = u16::from_be_bytes(*chunk_at(bytes, 32)?);
    (34 + usize::from(length) <= bytes.len()).then_some(length)
}
