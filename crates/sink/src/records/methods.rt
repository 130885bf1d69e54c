// From a dispatch to the 40 bytes of its record, and back.
ghost use Rattle.std.specs.Prelude.{◌≡◌, if◌then◌else◌, Some, None, Ok};
ghost use Rattle.sink.specs.Records.{laid, marked, record_at, has, flags_of, record_of, flagged, in_time, dispatch_in, checked, read_record};

use super::Record;
use event::{Defect, Dispatch, Message, Span, Time, Trigger};

// The length of a record.
pub(crate) const SIZE: usize = 40;

const KNOWN: u8 = 1;

const NAMED: u8 = 2;

const BASE64: u8 = 4;

const ON_START: u8 = 8;

// Which fields the dispatch has, and what it was told on.
fn flags(dispatch: Dispatch) -> u8
    ensures { result ≡ flags_of dispatch }
{
    KNOWN * u8::from(dispatch.span.duration.is_some())
        | NAMED * u8::from(dispatch.id.is_some())
        | BASE64 * u8::from(dispatch.message.base64)
        | ON_START * u8::from(dispatch.trigger == Trigger::Start)
}

impl From<Dispatch> for Record {
    ghost from_gives = { λ d r. (r ≡ record_of d) × (checked r ≡ Ok d) };

    // The record of a dispatch.
    fn from(dispatch: Dispatch) -> Record {
        Record {
            flags: flags(dispatch),
            stream: dispatch.stream,
            position: dispatch.position.ms(),
            start: dispatch.span.start.ms(),
            duration: dispatch.span.duration.map_or(0, |duration| duration.ms()),
            id: dispatch.id.unwrap_or(0),
            place: dispatch.message.place,
            length: dispatch.message.length,
        }
    }
}

impl Record {
    // Its bytes.
    fn bytes(self) -> [u8; SIZE]
        ensures { result ≡ laid self }
    {
        let mut bytes = [0; SIZE];
        bytes[0..4].copy_from_slice(&[b'D', b'L', self.flags, self.stream]);
        bytes[4..12].copy_from_slice(&self.position.to_be_bytes());
        bytes[12..20].copy_from_slice(&self.start.to_be_bytes());
        bytes[20..28].copy_from_slice(&self.duration.to_be_bytes());
        bytes[28..32].copy_from_slice(&self.id.to_be_bytes());
        bytes[32..36].copy_from_slice(&self.place.to_be_bytes());
        bytes[36..40].copy_from_slice(&self.length.to_be_bytes());
        bytes
    }

    // The record at the front of bytes, where the mark and 40 bytes are there.
    fn at(bytes: &[u8]) -> Option<Record>
        ensures { result ≡ (if marked bytes.now then Some (record_at bytes.now) else None) }
    {
        if bytes.len() < SIZE {
            return None;
        }
        let [b'D', b'L', flags, stream, rest @ ..] = bytes else {
            return None;
        };
        let (position, rest) = rest.split_first_chunk::<8>()?;
        let (start, rest) = rest.split_first_chunk::<8>()?;
        let (duration, rest) = rest.split_first_chunk::<8>()?;
        let (id, rest) = rest.split_first_chunk::<4>()?;
        let (place, rest) = rest.split_first_chunk::<4>()?;
        let (length, _) = rest.split_first_chunk::<4>()?;
        Some(Record {
            flags: *flags,
            stream: *stream,
            position: u64::from_be_bytes(*position),
            start: u64::from_be_bytes(*start),
            duration: u64::from_be_bytes(*duration),
            id: u32::from_be_bytes(*id),
            place: u32::from_be_bytes(*place),
            length: u32::from_be_bytes(*length),
        })
    }

    // Whether a flag is set.
    fn has(self, bit: u8) -> bool
        ensures { result ≡ has bit self.flags }
    {
        self.flags & bit != 0
    }

    // No flag without a meaning, and each unflagged field is 0.
    fn is_flagged(self) -> bool
        ensures { result ≡ flagged self }
    {
        self.flags < 16
            && (self.has(KNOWN) || self.duration == 0)
            && (self.has(NAMED) || self.id == 0)
    }

    // The dispatch, where its times are not past the latest.
    fn dispatch(self) -> Option<Dispatch>
        ensures { result ≡ (if in_time self then Some (dispatch_in self) else None) }
    {
        let position = Time::new(self.position)?;
        let start = Time::new(self.start)?;
        let duration = Time::new(self.duration)?;
        let message = Message {
            place: self.place,
            length: self.length,
            base64: self.has(BASE64),
        };
        Some(Dispatch {
            position,
            trigger: if self.has(ON_START) {
                Trigger::Start
            } else {
                Trigger::Receive
            },
            stream: self.stream,
            id: self.has(NAMED).then_some(self.id),
            span: Span {
                start,
                duration: self.has(KNOWN).then_some(duration),
            },
            message,
        })
    }
}

impl TryFrom<Record> for Dispatch {
    type Error = Defect;

    ghost try_from_gives = { λ r d. d ≡ checked r };

    // The dispatch, or what is wrong with the record.
    fn try_from(record: Record) -> Result<Dispatch, Defect> {
        if record.is_flagged() {
            record.dispatch().ok_or(Defect::PastLatest)
        } else {
            Err(Defect::Flags)
        }
    }
}

// The bytes of a dispatch's record: reading them gives the dispatch back.
pub(crate) fn written(dispatch: Dispatch) -> [u8; SIZE]
    ensures value { result ≡ laid (record_of dispatch) }
    ensures undone { read_record result ≡ Ok dispatch }
{
    Record::from(dispatch).bytes()
}

// The dispatch at the front of bytes, or what is wrong there.
pub(crate) fn read_record(bytes: &[u8]) -> Result<Dispatch, Defect>
    ensures { result ≡ read_record bytes.now }
{
    let record = Record::at(bytes).ok_or(Defect::CutRecord)?;
    Dispatch::try_from(record)
}
