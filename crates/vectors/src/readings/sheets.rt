// Sheets: what they give, and where they break.
use super::{event, sheet_ends, sheet_gives};
use std::test::Fail;

// One event each: its stream, id, start, duration and message.
#[test]
fn events(rt: HostRuntime) -> Result<(), Fail> {
    sheet_gives(
        &rt,
        b"ES\0\0\x03\xe8\0\0\0\0\0\0\0\0\x01\0aEV\x03\0\0\0\0\0\0\x05\xdc\0\0\x07\xd0\0\0\0\x09\0\x02hi",
        event(Some(0), Some(9), 1500, Some(2000), 0, (38, 2, false))?,
    )?;
    sheet_gives(
        &rt,
        b"ES\0\0\x03\xe8\0\0\0\0\0\0\0\0\x01\0aEV\0\0\0\0\0\0\0\0\0\0\0\0\0\0\0\0\0\0\0",
        event(Some(0), None, 0, None, 0, (38, 0, false))?,
    )?;
    sheet_gives(
        &rt,
        b"ES\0\0\x03\xe8\0\0\0\0\0\0\0\0\x01\0aEV\x01\0\0\0\0\0\0\0\x05\0\0\0\0\0\0\0\0\0\0",
        event(Some(0), None, 5, Some(0), 0, (38, 0, false))?,
    )?;
    sheet_gives(
        &rt,
        b"ES\0\0\x03\xe8\0\0\0\0\0\0\0\0\x01\0aEV\x02\0\0\0\0\0\0\0\x05\0\0\0\0\0\0\0\0\0\0",
        event(Some(0), Some(0), 5, None, 0, (38, 0, false))?,
    )?;
    sheet_gives(
        &rt,
        b"ES\0\0\x03\xe8\0\0\0\0\0\0\0\0\x01\0aEV\x02\0\0\0\0\0\0\0\x05\0\0\0\0\xff\xff\xff\xff\0\0",
        event(Some(0), Some(4_294_967_295), 5, None, 0, (38, 0, false))?,
    )?;
    sheet_gives(
        &rt,
        b"ES\0\0\x03\xe8\0\0\0\0\0\0\0\0\x01\0aEV\x01\0\0\0\0\0\0\0\x05\xff\xff\xff\xff\0\0\0\0\0\0",
        event(Some(0), None, 5, Some(4_294_967_295), 0, (38, 0, false))?,
    )?;
    sheet_gives(
        &rt,
        b"ES\0\0\x03\xe8\0\0\0\0\0\0\0\0\x03\x02urnv1EV\0\0\0\0\0\0\0\0\x05\0\0\0\0\0\0\0\0\0\0",
        event(Some(1), None, 5, None, 0, (42, 0, false))?,
    )?;
    sheet_gives(
        &rt,
        b"ES\0\0\x03\xe8\0\0\0\0\0\0\0\0\x03\x02urnv2EV\0\0\0\0\0\0\0\0\x05\0\0\0\0\0\0\0\0\0\0",
        event(None, None, 5, None, 0, (42, 0, false))?,
    )?;
    sheet_gives(
        &rt,
        b"ES\0\0\x03\xe8\0\0\0\0\0\0\0\0\x03\0urnEV\0\0\0\0\0\0\0\0\x05\0\0\0\0\0\0\0\0\0\0",
        event(None, None, 5, None, 0, (40, 0, false))?,
    )?;
    sheet_gives(
        &rt,
        b"ES\0\0\x03\xe8\0\0\0\0\0\0\0\0\0\0EV\0\0\0\0\0\0\0\0\x05\0\0\0\0\0\0\0\0\0\0",
        event(None, None, 5, None, 0, (37, 0, false))?,
    )?;
    sheet_gives(
        &rt,
        b"ES\0\0\x03\xe8\0\0\0\0\0\0\0\0\x01\0aES\0\0\0\x01\0\0\0\0\0\0\0\0\x03\x02urnv1EV\0\0\0\0\0\0\0\0\x03\0\0\0\0\0\0\0\0\0\0",
        event(Some(1), None, 3000, None, 0, (59, 0, false))?,
    )?;
    sheet_gives(
        &rt,
        b"ES\0\0\x03\xe8\0\0\0\0\0\0\0\0\x01\0aEV\x04\0\0\0\0\0\0\0\x05\0\0\0\0\0\0\0\0\0\x04aGk=",
        event(Some(0), None, 5, None, 0, (38, 4, true))?,
    )?;
    sheet_gives(
        &rt,
        b"ES\0\0\x03\xe8\0\0\0\0\0\0\0\0\x01\0aEV\x04\0\0\0\0\0\0\0\x05\0\0\0\0\0\0\0\0\0\0",
        event(Some(0), None, 5, None, 0, (38, 0, true))?,
    )?;
    sheet_gives(
        &rt,
        b"ES\0\0\x03\xe8\0\0\0\0\0\0\0\0\x01\0aEV\0\0\0\0\0\0\0\0\x05\0\0\0\0\0\0\0\0\0\x03aGk",
        event(Some(0), None, 5, None, 0, (38, 3, false))?,
    )?;
    sheet_gives(
        &rt,
        b"ES\0\0\x03\xe8\0\0\0\0\0\0\0\0\x01\0aEV\x07\0\0\0\0\0\0\0\x05\0\0\0\x06\0\0\0\x07\0\x04aA==",
        event(Some(0), Some(7), 5, Some(6), 0, (38, 4, true))?,
    )
}

// Times that are rounded, and times at their limits.
#[test]
fn times(rt: HostRuntime) -> Result<(), Fail> {
    sheet_gives(
        &rt,
        b"ES\0\0\0\x03\0\0\0\0\0\0\0\x01\x01\0aEV\x01\0\0\0\0\0\0\0\x03\0\0\0\x01\0\0\0\0\0\0",
        event(Some(0), None, 666, Some(333), 0, (38, 0, false))?,
    )?;
    sheet_gives(
        &rt,
        b"ES\0\0\0\x03\0\0\0\0\0\0\0\x01\x01\0aEV\x01\0\0\0\0\0\0\0\x02\0\0\0\x02\0\0\0\0\0\0",
        event(Some(0), None, 333, Some(666), 0, (38, 0, false))?,
    )?;
    sheet_gives(
        &rt,
        b"ES\0\0\x03\xe8\0\0\0\0\0\0\x02\xbc\x01\0aEV\0\0\0\0\0\0\0\x02\xbc\0\0\0\0\0\0\0\0\0\0",
        event(Some(0), None, 0, None, 0, (38, 0, false))?,
    )?;
    sheet_gives(
        &rt,
        b"ES\0\0\0\x01\0\0\0\0\0\0\0\0\x01\0aEV\x01\0\0\0\0\xeek(\0\xeek(\0\0\0\0\0\0\0",
        event(
            Some(0),
            None,
            4_000_000_000_000,
            Some(4_000_000_000_000),
            0,
            (38, 0, false),
        )?,
    )?;
    sheet_gives(
        &rt,
        b"ES\0\x98\x96\x80\0\0\0\0\0\0\0\0\x01\0aEV\0\0\x8e\x1b\xc9\xbf\x04'\x0f\0\0\0\0\0\0\0\0\0\0",
        event(Some(0), None, 4_000_000_000_000, None, 0, (38, 0, false))?,
    )?;
    sheet_ends(
        &rt,
        b"ES\0\x98\x96\x80\0\0\0\0\0\0\0\0\x01\0aEV\0\0\x8e\x1b\xc9\xbf\x04'\x10\0\0\0\0\0\0\0\0\0\0",
        0,
        0,
        10,
        17,
    )?;
    sheet_ends(
        &rt,
        b"ES\0\0\0\x01\0\0\0\0\0\0\0\0\x01\0aEV\0\0\0\0\0\xeek(\x01\0\0\0\0\0\0\0\0\0\0",
        0,
        0,
        10,
        17,
    )?;
    sheet_ends(
        &rt,
        b"ES\0\0\0\x01\0\0\0\0\0\0\0\0\x01\0aEV\0\xff\xff\xff\xff\xff\xff\xff\xff\0\0\0\0\0\0\0\0\0\0",
        0,
        0,
        10,
        17,
    )?;
    sheet_gives(
        &rt,
        b"ES\0\0\0\x01\xff\xff\xff\xff\xff\xff\xff\xfe\x01\0aEV\0\xff\xff\xff\xff\xff\xff\xff\xff\0\0\0\0\0\0\0\0\0\0",
        event(Some(0), None, 1000, None, 0, (38, 0, false))?,
    )?;
    sheet_ends(
        &rt,
        b"ES\0\0\0\x01\0\0\0\0\0\0\0\0\x01\0aEV\x01\0\0\0\0\0\0\0\0\xeek(\x01\0\0\0\0\0\0",
        0,
        0,
        10,
        17,
    )?;
    sheet_ends(
        &rt,
        b"ES\0\0\0\x01\0\0\0\0\0\0\0\0\x01\0aEV\x01\0\0\0\0\0\0\0\0\xff\xff\xff\xff\0\0\0\0\0\0",
        0,
        0,
        10,
        17,
    )?;
    sheet_ends(
        &rt,
        b"ES\0\0\x03\xe8\0\0\0\0\0\0\0\0\x01\0aEV\0\0\0\x03\xa3R\x94@\x01\0\0\0\0\0\0\0\0\0\0",
        0,
        0,
        10,
        17,
    )?;
    sheet_ends(
        &rt,
        b"ES\0\0\x03\xe8\0\0\0\0\0\0\x02\xbc\x01\0aEV\0\0\0\0\0\0\0\x02\xbb\0\0\0\0\0\0\0\0\0\0",
        0,
        0,
        9,
        17,
    )?;
    sheet_ends(
        &rt,
        b"ES\0\0\0\x01\xff\xff\xff\xff\xff\xff\xff\xff\x01\0aEV\0\0\0\0\0\0\0\0\0\0\0\0\0\0\0\0\0\0\0",
        0,
        0,
        9,
        17,
    )
}

// An unknown mark or a cut record.
#[test]
fn cut_records(rt: HostRuntime) -> Result<(), Fail> {
    sheet_ends(&rt, b"", 0, 0, 0, 0)?;
    sheet_ends(&rt, b"ES\0\0\x03\xe8\0\0\0\0\0\0\0\0\x01\0a", 0, 0, 0, 0)?;
    sheet_ends(&rt, b"XX", 0, 0, 11, 0)?;
    sheet_ends(&rt, b"E", 0, 0, 11, 0)?;
    sheet_ends(&rt, b"es\0\0\x03\xe8\0\0\0\0\0\0\0\0\x01\0a", 0, 0, 11, 0)?;
    sheet_ends(&rt, b"SV\x01\0a", 0, 0, 11, 0)?;
    sheet_ends(&rt, b"ES\0\0\x03\xe8\0\0\0\0\0\0\0\0\x01", 0, 0, 11, 0)?;
    sheet_ends(&rt, b"ES\0\0\x03\xe8\0\0\0\0\0\0\0\0\x01\0", 0, 0, 11, 0)?;
    sheet_ends(&rt, b"ES\0\0\0\0\0\0\0\0\0\0\0\0\x01\0", 0, 0, 11, 0)?;
    sheet_ends(
        &rt,
        b"ES\0\0\x03\xe8\0\0\0\0\0\0\0\0\x01\0aEV\x03\0\0\0\0\0\0\x05\xdc\0\0\x07\xd0\0\0\0\x09\0",
        0,
        0,
        11,
        17,
    )?;
    sheet_ends(
        &rt,
        b"ES\0\0\x03\xe8\0\0\0\0\0\0\0\0\x01\0aEV\x03\0\0\0\0\0\0\x05\xdc\0\0\x07\xd0\0\0\0\x09\0\x02h",
        0,
        0,
        11,
        17,
    )?;
    sheet_ends(&rt, b"EV\0\0\0\0\0\0\0\0\0\0\0\0\0\0\0\0\0\0", 0, 0, 11, 0)?;
    sheet_ends(
        &rt,
        b"ES\0\0\x03\xe8\0\0\0\0\0\0\0\0\x01\0aEV\x08\0\0\0\0\0\0\0\0\0\0\0\0\0\0\0\0\0\x01",
        0,
        0,
        11,
        17,
    )?;
    sheet_ends(
        &rt,
        b"ES\0\0\x03\xe8\0\0\0\0\0\0\0\0\x01\0aEV\x03\0\0\0\0\0\0\x05\xdc\0\0\x07\xd0\0\0\0\x09\0\x02hiE",
        0,
        1,
        11,
        40,
    )?;
    sheet_ends(
        &rt,
        b"ES\0\0\x03\xe8\0\0\0\0\0\0\0\0\x01\0aEV\x03\0\0\0\0\0\0\x05\xdc\0\0\x07\xd0\0\0\0\x09\0\x02hi\0\0",
        0,
        1,
        11,
        40,
    )
}

// A timescale, an event without its stream, flags, and a text that is not base64.
#[test]
fn bad_fields(rt: HostRuntime) -> Result<(), Fail> {
    sheet_ends(&rt, b"ES\0\0\0\0\0\0\0\0\0\0\0\0\x01\0a", 0, 0, 6, 0)?;
    sheet_ends(&rt, b"ES\0\x98\x96\x81\0\0\0\0\0\0\0\0\x01\0a", 0, 0, 6, 0)?;
    sheet_ends(
        &rt,
        b"ES\xff\xff\xff\xff\0\0\0\0\0\0\0\0\x01\0a",
        0,
        0,
        6,
        0,
    )?;
    sheet_ends(
        &rt,
        b"ES\0\0\x03\xe8\0\0\0\0\0\0\0\0\x01\0aEV\x03\0\0\0\0\0\0\x05\xdc\0\0\x07\xd0\0\0\0\x09\0\x02hiES\0\0\0\0\0\0\0\0\0\0\0\0\x01\0a",
        0,
        1,
        6,
        40,
    )?;
    sheet_ends(
        &rt,
        b"EV\0\0\0\0\0\0\0\0\0\0\0\0\0\0\0\0\0\0\0",
        0,
        0,
        12,
        0,
    )?;
    sheet_ends(
        &rt,
        b"EV\x08\0\0\0\0\0\0\0\0\0\0\0\0\0\0\0\0\0\0",
        0,
        0,
        12,
        0,
    )?;
    sheet_ends(
        &rt,
        b"ES\0\0\x03\xe8\0\0\0\0\0\0\0\0\x01\0aEV\x08\0\0\0\0\0\0\0\0\0\0\0\0\0\0\0\0\0\0",
        0,
        0,
        13,
        17,
    )?;
    sheet_ends(
        &rt,
        b"ES\0\0\x03\xe8\0\0\0\0\0\0\0\0\x01\0aEV\x80\0\0\0\0\0\0\0\0\0\0\0\0\0\0\0\0\0\0",
        0,
        0,
        13,
        17,
    )?;
    sheet_ends(
        &rt,
        b"ES\0\0\x03\xe8\0\0\0\0\0\0\0\0\x01\0aEV\0\0\0\0\0\0\0\0\0\0\0\0\x01\0\0\0\0\0\0",
        0,
        0,
        13,
        17,
    )?;
    sheet_ends(
        &rt,
        b"ES\0\0\x03\xe8\0\0\0\0\0\0\0\0\x01\0aEV\0\0\0\0\0\0\0\0\0\0\0\0\0\0\0\0\x01\0\0",
        0,
        0,
        13,
        17,
    )?;
    sheet_ends(
        &rt,
        b"ES\0\0\x03\xe8\0\0\0\0\0\0\0\0\x01\0aEV\x02\0\0\0\0\0\0\0\0\0\0\0\x01\0\0\0\x01\0\0",
        0,
        0,
        13,
        17,
    )?;
    sheet_ends(
        &rt,
        b"ES\0\0\x03\xe8\0\0\0\0\0\0\0\0\x01\0aEV\x01\0\0\0\0\0\0\0\0\0\0\0\x01\0\0\0\x01\0\0",
        0,
        0,
        13,
        17,
    )?;
    sheet_ends(
        &rt,
        b"ES\0\0\x03\xe8\0\0\0\0\0\0\0\0\x01\0aEV\x04\0\0\0\0\0\0\0\0\0\0\0\0\0\0\0\0\0\x03aGk",
        0,
        0,
        14,
        17,
    )?;
    sheet_ends(
        &rt,
        b"ES\0\0\x03\xe8\0\0\0\0\0\0\0\0\x01\0aEV\x04\0\0\0\0\0\0\0\0\0\0\0\0\0\0\0\0\0\x04aGl=",
        0,
        0,
        14,
        17,
    )?;
    sheet_ends(
        &rt,
        b"ES\0\0\x03\xe8\0\0\0\0\0\0\0\0\x01\0aEV\x04\0\0\0\0\0\0\0\0\0\0\0\0\0\0\0\0\0\x04aG-=",
        0,
        0,
        14,
        17,
    )
}

// The first check that fails is the one that counts, and places count from the first byte of the media buffer.
#[test]
fn orders_and_places(rt: HostRuntime) -> Result<(), Fail> {
    sheet_ends(
        &rt,
        b"ES\0\0\0\x01\0\0\0\0\0\0\0\x05\x01\0aEV\x08\0\0\0\0\0\0\0\x04\0\0\0\0\0\0\0\0\0\0",
        0,
        0,
        13,
        17,
    )?;
    sheet_ends(
        &rt,
        b"ES\0\0\0\x01\0\0\0\0\0\0\0\x05\x01\0aEV\x01\0\0\0\0\0\0\0\x04\xff\xff\xff\xff\0\0\0\0\0\0",
        0,
        0,
        9,
        17,
    )?;
    sheet_ends(
        &rt,
        b"ES\0\0\0\x01\0\0\0\0\0\0\0\x05\x01\0aEV\x04\0\0\0\0\0\0\0\x04\0\0\0\0\0\0\0\0\0\x01!",
        0,
        0,
        9,
        17,
    )?;
    sheet_ends(
        &rt,
        b"ES\0\0\0\x01\0\0\0\0\0\0\0\0\x01\0aEV\x05\0\0\0\0\0\0\0\0\xff\xff\xff\xff\0\0\0\0\0\x01!",
        0,
        0,
        10,
        17,
    )?;
    sheet_ends(
        &rt,
        b"ES\0\0\0\x01\0\0\0\0\0\0\0\0\x01\0aEV\x04\0\0\0\0\xeek(\x01\0\0\0\0\0\0\0\0\0\x01!",
        0,
        0,
        10,
        17,
    )?;
    sheet_ends(
        &rt,
        b"ES\0\0\x03\xe8\0\0\0\0\0\0\0\0\x01\0aEV\x03\0\0\0\0\0\0\x05\xdc\0\0\x07\xd0\0\0\0\x09\0\x02hiEV\x03\0\0\0\0\0\0\x05\xdc\0\0\x07\xd0\0\0\0\x09\0\x02hi",
        0,
        2,
        0,
        0,
    )?;
    sheet_ends(
        &rt,
        b"ES\0\0\x03\xe8\0\0\0\0\0\0\0\0\x01\0aEV\x03\0\0\0\0\0\0\x05\xdc\0\0\x07\xd0\0\0\0\x09\0\x02hiEV\x08\0\0\0\0\0\0\0\0\0\0\0\0\0\0\0\0\0\0EV\x03\0\0\0\0\0\0\x05\xdc\0\0\x07\xd0\0\0\0\x09\0\x02hi",
        0,
        1,
        13,
        40,
    )?;
    sheet_ends(
        &rt,
        b"ES\0\0\x03\xe8\0\0\0\0\0\0\0\0\x01\0aEV\x03\0\0\0\0\0\0\x05\xdc\0\0\x07\xd0\0\0\0\x09\0\x02hiES\0\0\0\x01\0\0\0\0\0\0\0\0\x03\x02urnv1EV\x03\0\0\0\0\0\0\x05\xdc\0\0\x07\xd0\0\0\0\x09\0\x02hiEV\x10\0\0\0\0\0\0\0\0\0\0\0\0\0\0\0\0\0\0",
        0,
        2,
        13,
        84,
    )?;
    sheet_ends(
        &rt,
        b"........ES\0\0\x03\xe8\0\0\0\0\0\0\0\0\x01\0aEV\x03\0\0\0\0\0\0\x05\xdc\0\0\x07\xd0\0\0\0\x09\0\x02hi",
        8,
        1,
        0,
        0,
    )?;
    sheet_ends(
        &rt,
        b"........ES\0\0\x03\xe8\0\0\0\0\0\0\0\0\x01\0aEV\x03\0\0\0\0\0\0\x05\xdc\0\0\x07\xd0\0\0\0\x09\0\x02hiEV\x04\0\0\0\0\0\0\0\0\0\0\0\0\0\0\0\0\0\x01!",
        8,
        1,
        14,
        48,
    )?;
    sheet_ends(
        &rt,
        b"........ES\0\0\0\0\0\0\0\0\0\0\0\0\x01\0a",
        8,
        0,
        6,
        8,
    )?;
    sheet_ends(
        &rt,
        b"........EV\0\0\0\0\0\0\0\0\0\0\0\0\0\0\0\0\0\0\0",
        8,
        0,
        12,
        8,
    )?;
    sheet_ends(
        &rt,
        b"........ES\0\0\x03\xe8\0\0\0\0\0\0\0\0\x01\0a?",
        8,
        0,
        11,
        25,
    )?;
    sheet_ends(&rt, b"........", 8, 0, 0, 0)
}
