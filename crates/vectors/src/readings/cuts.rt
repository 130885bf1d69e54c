// Stretches that end at every byte of what they hold, buffers at their greatest length, and catalogues that are full.
use super::{LISTED, ends, listed, plain, segment, sheet};
use reader::{Catalogue, Pair, Stretch};
use std::test::Fail;

const SHEET: &[u8] =
    b"ES\0\0\x03\xe8\0\0\0\0\0\0\0\0\x01\0aEV\x03\0\0\0\0\0\0\x05\xdc\0\0\x07\xd0\0\0\0\x09\0\x02hiEV\x04\0\0\0\0\0\0\0\x05\0\0\0\0\0\0\0\0\0\x04aGk=";

const SEGMENT: &[u8] =
    b"\0\0\0!emsg\0\0\0\0a\0\0\0\0\x03\xe8\0\0\x01\xf4\0\0\0\xfa\0\0\0\x07ok\0\0\0&emsg\x01\0\0\0\0\0\x03\xe8\0\0\0\0\0\0#(\0\0\0\xfa\0\0\0\x08a\0\0yes";

const OPEN: &[u8] = b"\0\0\0\0emsg\0\0\0\0a\0\0\0\0\x03\xe8\0\0\x01\xf4\0\0\0\xfa\0\0\0\x07ok";

// The sheet is an opening of 17 bytes and events of 23 and 25; both a cut buffer and a cut stretch end inside a record or behind it.
#[test]
fn sheets(rt: HostRuntime) -> Result<(), Fail> {
    for to in 0..66 {
        let (records, number, place) = match to {
            0 => (0, 0, 0),
            1..=16 => (0, 11, 0),
            17 => (0, 0, 0),
            18..=39 => (0, 11, 17),
            40 => (1, 0, 0),
            41..=64 => (1, 11, 40),
            _ => (2, 0, 0),
        };
        assert!(rt; to <= SHEET.len());
        ends(&rt, sheet(&rt, SHEET, 0, to)?, records, number, place);
        ends(
            &rt,
            sheet(&rt, &SHEET[0..to], 0, to)?,
            records,
            number,
            place,
        );
    }
    Ok(())
}

// The segment is a box of 33 bytes and one of 38.
#[test]
fn segments(rt: HostRuntime) -> Result<(), Fail> {
    for to in 0..72 {
        let (records, number, place) = match to {
            0 => (0, 0, 0),
            1..=32 => (0, 7, 0),
            33 => (1, 0, 0),
            34..=70 => (1, 7, 33),
            _ => (2, 0, 0),
        };
        assert!(rt; to <= SEGMENT.len());
        ends(
            &rt,
            segment(&rt, SEGMENT, 0, to, plain()?)?,
            records,
            number,
            place,
        );
        ends(
            &rt,
            segment(&rt, &SEGMENT[0..to], 0, to, plain()?)?,
            records,
            number,
            place,
        );
    }
    Ok(())
}

// A box that reaches to the end of the stretch has its head in 8 bytes and its fields in 31, and then its message.
#[test]
fn open_boxes(rt: HostRuntime) -> Result<(), Fail> {
    for to in 0..34 {
        let (records, number, length) = match to {
            0 => (0, 0, 0),
            1..=7 => (0, 7, 0),
            8..=30 => (0, 8, 0),
            31 => (1, 0, 0),
            32 => (1, 0, 1),
            _ => (1, 0, 2),
        };
        assert!(rt; to <= OPEN.len());
        let reading = segment(&rt, OPEN, 0, to, plain()?)?;
        ends(&rt, reading, records, number, 0);
        if let Some(event) = reading.first {
            assert!(rt; event.message.length == length);
        }
    }
    Ok(())
}

// The catalogue of two records of 5 and 9 bytes.
#[test]
fn catalogues(rt: HostRuntime) -> Result<(), Fail> {
    for to in 0..15 {
        let (streams, number) = match to {
            0 => (0, 0),
            5 => (1, 0),
            14 => (2, 0),
            _ => (0, 1),
        };
        assert!(rt; to <= LISTED.len());
        listed(&rt, &LISTED[0..to], 0, streams, number)?;
    }
    Ok(())
}

// A buffer of 65,536 bytes is taken and a longer one is not, whatever the stretch.
#[test]
fn longest(rt: HostRuntime) -> Result<(), Fail> {
    let media = [0u8; 65_537];
    assert!(rt; Stretch::new(&media[0..65_536], 0, 65_536).is_ok());
    match Stretch::new(&media, 0, 0) {
        Ok(_) => Err(Fail::new("a buffer that is too long")),
        Err(refusal) => {
            assert!(rt; refusal.number() == 5);
            Ok(())
        },
    }
}

// 33 records of schemes of one byte each, the last with this mark and this scheme.
fn crowd(mark: u8, scheme: u8) -> [u8; 165] {
    let mut media = [0; 165];
    let (records, _) = media.as_chunks_mut::<5>();
    for (record, scheme) in records.iter_mut().zip(65u8..98) {
        *record = [b'S', b'V', 1, 0, scheme];
    }
    media[161] = mark;
    media[164] = scheme;
    media
}

// 32 streams are listed; then a new one is refused as the 33rd, a listed one as a repeat, one of a 0 byte for its string, and another mark for its record.
#[test]
fn full(rt: HostRuntime) -> Result<(), Fail> {
    let media = crowd(b'V', 97);
    listed(&rt, &media[0..160], 0, 32, 0)?;
    listed(&rt, &media, 0, 0, 4)?;
    listed(&rt, &crowd(b'V', 70), 0, 0, 3)?;
    listed(&rt, &crowd(b'V', 0), 0, 0, 2)?;
    listed(&rt, &crowd(b'v', 97), 0, 0, 1)
}

// The pair of these strings.
fn pair<'a>(scheme: &'a [u8], value: &'a [u8]) -> Pair<'a> {
    Pair { scheme, value }
}

// A pair is found by equal bytes, and its number is that of its record.
#[test]
fn found(rt: HostRuntime) -> Result<(), Fail> {
    let catalogue = Catalogue::read(Stretch::new(LISTED, 0, LISTED.len())?)?;
    assert_eq!(rt; catalogue.find(pair(b"a", b"")), Some(0));
    assert_eq!(rt; catalogue.find(pair(b"urn", b"v1")), Some(1));
    assert_eq!(rt; catalogue.find(pair(b"urnv", b"1")), None);
    assert_eq!(rt; catalogue.find(pair(b"URN", b"v1")), None);
    assert_eq!(rt; catalogue.find(pair(b"", b"a")), None);
    Ok(())
}
