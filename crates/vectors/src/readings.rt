// What readers give over short media buffers, beside the values that the formats call for.
use event::{Event, Fault, Feed, Message, Refusal, Span, Time};
use reader::{Catalogue, SegmentReader, SheetReader, Stretch, Times, Timing};
use std::process::Abort;
use std::test::Fail;

mod cuts;
mod making;
mod segments;
mod sheets;

// Stream 0 is `a` with no value, stream 1 is `urn` with value `v1`.
const LISTED: &[u8] = b"SV\x01\0aSV\x03\x02urnv1";

// What a feed gave: how many records, the first of them, and the fault that it stops at, none at a clean end.
#[derive(Clone, Copy)]
struct Reading {
    records: usize,
    first: Option<Event>,
    fault: Option<Fault>,
}

impl Reading {
    // The number and the place of the fault, both 0 at a clean end.
    fn ending(self) -> (u8, u32) {
        match self.fault {
            Some(fault) => (fault.defect.number(), fault.place),
            None => (0, 0),
        }
    }
}

// Reads a feed to its ending, where a step changes nothing.
fn drained<F: Feed + Drop>(rt: &impl Abort, mut feed: F) -> Result<Reading, Fail> {
    let mut first = None;
    for records in 0..64 {
        let seen = feed.look();
        feed.step();
        match seen {
            Ok(Some(event)) => first = first.or(Some(event)),
            ending => {
                assert!(rt; feed.look() == ending);
                return Ok(Reading {
                    records,
                    first,
                    fault: ending.err(),
                });
            }
        }
    }
    Err(Fail::new("the feed does not end"))
}

// The catalogue of the two streams.
fn catalogue() -> Result<Catalogue<'static>, Refusal> {
    Catalogue::read(Stretch::new(LISTED, 0, LISTED.len())?)
}

// Reads the sheet in a stretch.
fn sheet(rt: &impl Abort, media: &[u8], from: usize, to: usize) -> Result<Reading, Fail> {
    let catalogue = catalogue()?;
    drained(
        rt,
        SheetReader::new(Stretch::new(media, from, to)?, &catalogue),
    )
}

// Reads the segment in a stretch.
fn segment(
    rt: &impl Abort,
    media: &[u8],
    from: usize,
    to: usize,
    timing: Timing,
) -> Result<Reading, Fail> {
    let catalogue = catalogue()?;
    drained(
        rt,
        SegmentReader::new(Stretch::new(media, from, to)?, timing, &catalogue),
    )
}

// The timing of a segment with its earliest presentation time, offset and media timescale, and its inband offset and that one's timescale.
fn timing(
    earliest: u64,
    offset: u64,
    media_ticks: u32,
    inband: u64,
    inband_ticks: u32,
) -> Result<Timing, Refusal> {
    Timing::new(Times {
        earliest,
        offset,
        media_ticks,
        inband,
        inband_ticks,
    })
}

// An arrival at 4000, and an inband offset of 2000.
fn plain() -> Result<Timing, Fail> {
    Ok(timing(5000, 1000, 1000, 2000, 1000)?)
}

// The time of so many milliseconds.
fn time(ms: u64) -> Result<Time, Fail> {
    Time::new(ms).ok_or_else(|| Fail::new("past the latest time"))
}

// An event of these fields; those of its message are the place, the length, and whether it is base64.
fn event(
    stream: Option<u8>,
    id: Option<u32>,
    start: u64,
    duration: Option<u64>,
    arrival: u64,
    message: (u32, u32, bool),
) -> Result<Event, Fail> {
    let (place, length, base64) = message;
    Ok(Event {
        stream,
        id,
        span: Span {
            start: time(start)?,
            duration: duration.map(time).transpose()?,
        },
        arrival: time(arrival)?,
        message: Message {
            place,
            length,
            base64,
        },
    })
}

// The reading has so many records, and a fault of this number at this place.
fn ends(rt: &impl Abort, reading: Reading, records: usize, number: u8, place: u32) {
    assert_eq!(rt; reading.records, records);
    assert_eq!(rt; reading.ending(), (number, place));
}

// The reading has one record, which is this, and a clean end.
fn gives(rt: &impl Abort, reading: Reading, event: Event) {
    ends(rt, reading, 1, 0, 0);
    assert_eq!(rt; reading.first, Some(event));
}

// The sheet from a place on gives so many records, and then a fault of this number at this place.
fn sheet_ends(
    rt: &impl Abort,
    media: &[u8],
    from: usize,
    records: usize,
    number: u8,
    place: u32,
) -> Result<(), Fail> {
    let reading = sheet(rt, media, from, media.len())?;
    ends(rt, reading, records, number, place);
    Ok(())
}

// The sheet gives one record, which is this.
fn sheet_gives(rt: &impl Abort, media: &[u8], event: Event) -> Result<(), Fail> {
    gives(rt, sheet(rt, media, 0, media.len())?, event);
    Ok(())
}

// The segment from a place on gives so many records, and then a fault of this number at this place.
fn segment_ends(
    rt: &impl Abort,
    media: &[u8],
    from: usize,
    records: usize,
    number: u8,
    place: u32,
) -> Result<(), Fail> {
    let reading = segment(rt, media, from, media.len(), plain()?)?;
    ends(rt, reading, records, number, place);
    Ok(())
}

// The segment gives one record, which is this.
fn segment_gives(rt: &impl Abort, media: &[u8], event: Event) -> Result<(), Fail> {
    gives(rt, segment(rt, media, 0, media.len(), plain()?)?, event);
    Ok(())
}

// The number of a refusal, 0 where there is none.
fn number_of<T: Drop>(answer: Result<T, Refusal>) -> u8 {
    answer.err().map_or(0, |refusal| refusal.number())
}

// With this timing a segment of one box gives a record of this start, or a fault of this number.
fn counted(
    rt: &impl Abort,
    timing: Timing,
    media: &[u8],
    start: u64,
    number: u8,
) -> Result<(), Fail> {
    let reading = segment(rt, media, 0, media.len(), timing)?;
    let given = reading.first.map(|event| event.span.start.ms());
    assert_eq!(rt; reading.ending(), (number, 0));
    assert_eq!(rt; given, (number == 0).then_some(start));
    Ok(())
}

// Making the stretch answers this number, 0 where it is made.
fn stretched(
    rt: &impl Abort,
    media: &[u8],
    from: usize,
    to: usize,
    number: u8,
) -> Result<(), Fail> {
    let made = Stretch::new(media, from, to);
    assert_eq!(rt; number_of(made), number);
    if let Ok(stretch) = made {
        assert_eq!(rt; Some(stretch.bytes()), media.get(from..to));
    }
    Ok(())
}

// Making the timing answers this number, 0 where it is made.
fn timed(
    rt: &impl Abort,
    earliest: u64,
    offset: u64,
    media_ticks: u32,
    inband: u64,
    inband_ticks: u32,
    number: u8,
) -> Result<(), Fail> {
    let made = timing(earliest, offset, media_ticks, inband, inband_ticks);
    assert_eq!(rt; number_of(made), number);
    Ok(())
}

// The catalogue from a place on lists so many streams, or is refused with this number.
fn listed(rt: &impl Abort, media: &[u8], from: usize, streams: u8, number: u8) -> Result<(), Fail> {
    let read = Catalogue::read(Stretch::new(media, from, media.len())?);
    assert_eq!(rt; number_of(read), number);
    assert_eq!(rt;
        read.map_or(0, |catalogue| catalogue.streams().count()),
        streams
    );
    Ok(())
}
