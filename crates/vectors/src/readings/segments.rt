// Segments: what they give, and where they break.
use super::{event, segment_ends, segment_gives};
use std::test::Fail;

// One event each: its stream, id, start, duration and message.
#[test]
fn events(rt: HostRuntime) -> Result<(), Fail> {
    segment_gives(
        &rt,
        b"\0\0\0!emsg\0\0\0\0a\0\0\0\0\x03\xe8\0\0\x01\xf4\0\0\0\xfa\0\0\0\x07ok",
        event(Some(0), Some(7), 4500, Some(250), 4000, (31, 2, false))?,
    )?;
    segment_gives(
        &rt,
        b"\0\0\0&emsg\x01\0\0\0\0\0\x03\xe8\0\0\0\0\0\0#(\0\0\0\xfa\0\0\0\x08a\0\0yes",
        event(Some(0), Some(8), 7000, Some(250), 4000, (35, 3, false))?,
    )?;
    segment_gives(
        &rt,
        b"\0\0\0\x1femsg\0\0\0\0a\0\0\0\0\x03\xe8\0\0\0\0\0\0\0\0\0\0\0\0",
        event(Some(0), Some(0), 4000, Some(0), 4000, (31, 0, false))?,
    )?;
    segment_gives(
        &rt,
        b"\0\0\0#emsg\x01\0\0\0\0\0\x03\xe8\0\0\0\0\0\0\x07\xd0\0\0\0\0\0\0\0\0a\0\0",
        event(Some(0), Some(0), 0, Some(0), 4000, (35, 0, false))?,
    )?;
    segment_gives(
        &rt,
        b"\0\0\0%emsg\0\0\0\0urn\0v1\0\0\0\x03\xe8\0\0\0\0\0\0\0\0\0\0\0\x01\0\0",
        event(Some(1), Some(1), 4000, Some(0), 4000, (35, 2, false))?,
    )?;
    segment_gives(
        &rt,
        b"\0\0\0)emsg\x01\0\0\0\0\0\x03\xe8\0\0\0\0\0\0\x07\xd0\0\0\0\0\0\0\0\x01urn\0v1\0\0\0",
        event(Some(1), Some(1), 0, Some(0), 4000, (39, 2, false))?,
    )?;
    segment_gives(
        &rt,
        b"\0\0\0\x1femsg\0\0\0\0b\0\0\0\0\x03\xe8\0\0\0\0\0\0\0\0\0\0\0\x01",
        event(None, Some(1), 4000, Some(0), 4000, (31, 0, false))?,
    )?;
    segment_gives(
        &rt,
        b"\0\0\0$emsg\x01\0\0\0\0\0\x03\xe8\0\0\0\0\0\0\x07\xd0\0\0\0\0\0\0\0\x01a\0x\0",
        event(None, Some(1), 0, Some(0), 4000, (36, 0, false))?,
    )?;
    segment_gives(
        &rt,
        b"\0\0\0\x1eemsg\0\0\0\0\0\0\0\0\x03\xe8\0\0\0\0\0\0\0\0\0\0\0\x01",
        event(None, Some(1), 4000, Some(0), 4000, (30, 0, false))?,
    )?;
    segment_gives(
        &rt,
        b"\0\0\0\x1femsg\0\0\0\0a\0\0\0\0\x03\xe8\0\0\0\x01\xff\xff\xff\xff\xff\xff\xff\xff",
        event(
            Some(0),
            Some(4_294_967_295),
            4001,
            None,
            4000,
            (31, 0, false),
        )?,
    )?;
    segment_gives(
        &rt,
        b"\0\0\0#emsg\x01\0\0\0\0\0\0\x01\0\0\0\0\0\0\0\x02\xff\xff\xff\xff\0\0\0\x03a\0\0",
        event(Some(0), Some(3), 0, None, 4000, (35, 0, false))?,
    )?;
    segment_gives(
        &rt,
        b"\0\0\0\x1femsg\0\0\0\0a\0\0\0\0\x03\xe8\0\0\0\x01\xff\xff\xff\xfe\0\0\0\x03",
        event(
            Some(0),
            Some(3),
            4001,
            Some(4_294_967_294),
            4000,
            (31, 0, false),
        )?,
    )?;
    segment_gives(
        &rt,
        b"\0\0\0\x1femsg\0\xab\xcd\xefa\0\0\0\0\x03\xe8\0\0\0\x01\0\0\0\x02\0\0\0\x03",
        event(Some(0), Some(3), 4001, Some(2), 4000, (31, 0, false))?,
    )?;
    segment_gives(
        &rt,
        b"\0\0\0#emsg\x01\xff\xff\xff\0\0\x03\xe8\0\0\0\0\0\0\x07\xd1\0\0\0\x02\0\0\0\x03a\0\0",
        event(Some(0), Some(3), 1, Some(2), 4000, (35, 0, false))?,
    )
}

// Sizes of every kind, and boxes that are stepped over.
#[test]
fn boxes(rt: HostRuntime) -> Result<(), Fail> {
    segment_gives(
        &rt,
        b"\0\0\0\0emsg\0\0\0\0a\0\0\0\0\x03\xe8\0\0\x01\xf4\0\0\0\xfa\0\0\0\x07ok",
        event(Some(0), Some(7), 4500, Some(250), 4000, (31, 2, false))?,
    )?;
    segment_gives(
        &rt,
        b"\0\0\0\x01emsg\0\0\0\0\0\0\0)\0\0\0\0a\0\0\0\0\x03\xe8\0\0\x01\xf4\0\0\0\xfa\0\0\0\x07ok",
        event(Some(0), Some(7), 4500, Some(250), 4000, (39, 2, false))?,
    )?;
    segment_gives(
        &rt,
        b"\0\0\0\x01emsg\0\0\0\0\0\0\0.\x01\0\0\0\0\0\x03\xe8\0\0\0\0\0\0#(\0\0\0\xfa\0\0\0\x08a\0\0yes",
        event(Some(0), Some(8), 7000, Some(250), 4000, (43, 3, false))?,
    )?;
    segment_gives(
        &rt,
        b"\0\0\0\x08free\0\0\0!emsg\0\0\0\0a\0\0\0\0\x03\xe8\0\0\x01\xf4\0\0\0\xfa\0\0\0\x07ok",
        event(Some(0), Some(7), 4500, Some(250), 4000, (39, 2, false))?,
    )?;
    segment_gives(
        &rt,
        b"\0\0\0\x01free\0\0\0\0\0\0\0\x10\0\0\0!emsg\0\0\0\0a\0\0\0\0\x03\xe8\0\0\x01\xf4\0\0\0\xfa\0\0\0\x07ok",
        event(Some(0), Some(7), 4500, Some(250), 4000, (47, 2, false))?,
    )?;
    segment_gives(
        &rt,
        b"\0\0\0!emsg\0\0\0\0a\0\0\0\0\x03\xe8\0\0\x01\xf4\0\0\0\xfa\0\0\0\x07ok\0\0\0\0mdat\0\0\0&emsg\x01\0\0\0\0\0\x03\xe8\0\0\0\0\0\0#(\0\0\0\xfa\0\0\0\x08a\0\0yes",
        event(Some(0), Some(7), 4500, Some(250), 4000, (31, 2, false))?,
    )?;
    segment_gives(
        &rt,
        b"\0\0\0\x1femsg\x02\0\0\0a\0\0\0\0\x03\xe8\0\0\x01\xf4\0\0\0\xfa\0\0\0\0\0\0\0!emsg\0\0\0\0a\0\0\0\0\x03\xe8\0\0\x01\xf4\0\0\0\xfa\0\0\0\x07ok",
        event(Some(0), Some(7), 4500, Some(250), 4000, (62, 2, false))?,
    )?;
    segment_gives(
        &rt,
        b"\0\0\0\x0cemsg\x02\0\0\0\0\0\0!emsg\0\0\0\0a\0\0\0\0\x03\xe8\0\0\x01\xf4\0\0\0\xfa\0\0\0\x07ok",
        event(Some(0), Some(7), 4500, Some(250), 4000, (43, 2, false))?,
    )?;
    segment_gives(
        &rt,
        b"\0\0\0\x0cemsg\xff\0\0\0\0\0\0!emsg\0\0\0\0a\0\0\0\0\x03\xe8\0\0\x01\xf4\0\0\0\xfa\0\0\0\x07ok",
        event(Some(0), Some(7), 4500, Some(250), 4000, (43, 2, false))?,
    )?;
    segment_gives(
        &rt,
        b"\0\0\0\x1fEMSG\0\0\0\0a\0\0\0\0\0\0\0\0\0\0\0\0\0\0\0\0\0\0\0\0\0!emsg\0\0\0\0a\0\0\0\0\x03\xe8\0\0\x01\xf4\0\0\0\xfa\0\0\0\x07ok",
        event(Some(0), Some(7), 4500, Some(250), 4000, (62, 2, false))?,
    )?;
    segment_gives(
        &rt,
        b"\0\0\0.moof\0\0\0&emsg\x01\0\0\0\0\0\x03\xe8\0\0\0\0\0\0#(\0\0\0\xfa\0\0\0\x08a\0\0yes\0\0\0!emsg\0\0\0\0a\0\0\0\0\x03\xe8\0\0\x01\xf4\0\0\0\xfa\0\0\0\x07ok",
        event(Some(0), Some(7), 4500, Some(250), 4000, (77, 2, false))?,
    )?;
    segment_ends(&rt, b"", 0, 0, 0, 0)?;
    segment_ends(
        &rt,
        b"\0\0\0\0mdat\0\0\0!emsg\0\0\0\0a\0\0\0\0\x03\xe8\0\0\x01\xf4\0\0\0\xfa\0\0\0\x07ok",
        0,
        0,
        0,
        0,
    )?;
    segment_ends(
        &rt,
        b"\0\0\0!emsg\0\0\0\0a\0\0\0\0\x03\xe8\0\0\x01\xf4\0\0\0\xfa\0\0\0\x07ok\0\0\0&emsg\x01\0\0\0\0\0\x03\xe8\0\0\0\0\0\0#(\0\0\0\xfa\0\0\0\x08a\0\0yes",
        0,
        2,
        0,
        0,
    )?;
    segment_ends(
        &rt,
        b"\0\0\0!emsg\0\0\0\0a\0\0\0\0\x03\xe8\0\0\x01\xf4\0\0\0\xfa\0\0\0\x07ok\0\0\0\x08free\0\0\0&emsg\x01\0\0\0\0\0\x03\xe8\0\0\0\0\0\0#(\0\0\0\xfa\0\0\0\x08a\0\0yes\0\0\0\0emsg\0\0\0\0a\0\0\0\0\0\x01\0\0\0\0\0\0\0\0\0\0\0\0",
        0,
        3,
        0,
        0,
    )
}

// A head that is cut, and sizes that are below their head or past the stretch.
#[test]
fn bad_sizes(rt: HostRuntime) -> Result<(), Fail> {
    segment_ends(&rt, b"\0", 0, 0, 7, 0)?;
    segment_ends(&rt, b"\0\0\0\x08fre", 0, 0, 7, 0)?;
    segment_ends(&rt, b"\0\0\0\0ems", 0, 0, 7, 0)?;
    segment_ends(&rt, b"\0\0\0\x07free", 0, 0, 7, 0)?;
    segment_ends(&rt, b"\0\0\0\x02free", 0, 0, 7, 0)?;
    segment_ends(&rt, b"\0\0\0\x09free", 0, 0, 7, 0)?;
    segment_ends(&rt, b"\xff\xff\xff\xfffree", 0, 0, 7, 0)?;
    segment_ends(
        &rt,
        b"\0\0\0\"emsg\0\0\0\0a\0\0\0\0\x03\xe8\0\0\x01\xf4\0\0\0\xfa\0\0\0\x07ok",
        0,
        0,
        7,
        0,
    )?;
    segment_ends(&rt, b"\0\0\0\x01free\0\0\0\0\0\0\0", 0, 0, 7, 0)?;
    segment_ends(&rt, b"\0\0\0\x01free\0\0\0\0\0\0\0\x0f", 0, 0, 7, 0)?;
    segment_ends(&rt, b"\0\0\0\x01free\0\0\0\0\0\0\0\0", 0, 0, 7, 0)?;
    segment_ends(&rt, b"\0\0\0\x01free\0\0\0\0\0\0\0\x01", 0, 0, 7, 0)?;
    segment_ends(&rt, b"\0\0\0\x01free\0\0\0\0\0\0\0\x11", 0, 0, 7, 0)?;
    segment_ends(&rt, b"\0\0\0\x01free\0\0\0\x01\0\0\0\x10", 0, 0, 7, 0)?;
    segment_ends(
        &rt,
        b"\0\0\0\x01free\xff\xff\xff\xff\xff\xff\xff\xff",
        0,
        0,
        7,
        0,
    )
}

// Fields that do not fit their box, and strings that are not closed in it.
#[test]
fn bad_fields(rt: HostRuntime) -> Result<(), Fail> {
    segment_ends(&rt, b"\0\0\0\x08emsg", 0, 0, 8, 0)?;
    segment_ends(&rt, b"\0\0\0\x0cemsg\0\0\0\0", 0, 0, 8, 0)?;
    segment_ends(&rt, b"\0\0\0\x0cemsg\x01\0\0\0", 0, 0, 8, 0)?;
    segment_ends(&rt, b"\0\0\0\x10emsg\0\0\0\0aaaa", 0, 0, 8, 0)?;
    segment_ends(&rt, b"\0\0\0\x10emsg\0\0\0\0a\0vv", 0, 0, 8, 0)?;
    segment_ends(
        &rt,
        b"\0\0\04emsg\0\0\0\0aaaaaaaaaaaaaaaaaaaaaaaaaaaaaaaaaaaaaaaa",
        0,
        0,
        8,
        0,
    )?;
    segment_ends(
        &rt,
        b"\0\0\0\x1eemsg\0\0\0\0a\0\0\0\0\x03\xe8\0\0\x01\xf4\0\0\0\xfa\0\0\0",
        0,
        0,
        8,
        0,
    )?;
    segment_ends(
        &rt,
        b"\0\0\0\x1eemsg\0\0\0\0a\0\0\0\0\x03\xe8\0\0\x01\xf4\0\0\0\xfa\0\0\0\0",
        0,
        0,
        8,
        0,
    )?;
    segment_ends(
        &rt,
        b"\0\0\0\"emsg\x01\0\0\0\0\0\x03\xe8\0\0\0\0\0\0\x07\xd0\0\0\0\xfa\0\0\0\0a\0",
        0,
        0,
        8,
        0,
    )?;
    segment_ends(
        &rt,
        b"\0\0\0!emsg\x01\0\0\0\0\0\x03\xe8\0\0\0\0\0\0\x07\xd0\0\0\0\xfa\0\0\0\0a",
        0,
        0,
        8,
        0,
    )?;
    segment_ends(
        &rt,
        b"\0\0\0\"emsg\x01\0\0\0\0\0\x03\xe8\0\0\0\0\0\0\x07\xd0\0\0\0\xfa\0\0\0\0a\0\0\0\0\x08free",
        0,
        0,
        8,
        0,
    )?;
    segment_ends(
        &rt,
        b"\0\0\0\x1eemsg\x01\0\0\0\0\0\x03\xe8\0\0\0\0\0\0\x07\xd0\0\0\0\xfa\0\0",
        0,
        0,
        8,
        0,
    )?;
    segment_ends(
        &rt,
        b"\0\0\0\x01emsg\0\0\0\0\0\0\0*\x01\0\0\0\0\0\x03\xe8\0\0\0\0\0\0\x07\xd0\0\0\0\xfa\0\0\0\0a\0",
        0,
        0,
        8,
        0,
    )?;
    segment_ends(
        &rt,
        b"\0\0\0\x1eemsg\0\0\0\0a\0\0\0\0\0\0\0\0\x01\xf4\0\0\0\xfa\0\0\0",
        0,
        0,
        8,
        0,
    )
}

// Timescales, and times below 0 or past the latest one.
#[test]
fn bad_times(rt: HostRuntime) -> Result<(), Fail> {
    segment_ends(
        &rt,
        b"\0\0\0\x1femsg\0\0\0\0a\0\0\0\0\0\0\0\0\0\0\0\0\0\0\0\0\0\0",
        0,
        0,
        6,
        0,
    )?;
    segment_ends(
        &rt,
        b"\0\0\0#emsg\x01\0\0\0\0\0\0\0\0\0\0\0\0\0\0\0\0\0\0\0\0\0\0\0a\0\0",
        0,
        0,
        6,
        0,
    )?;
    segment_ends(
        &rt,
        b"\0\0\0\x1femsg\0\0\0\0a\0\0\0\x98\x96\x81\0\0\0\0\0\0\0\0\0\0\0\0",
        0,
        0,
        6,
        0,
    )?;
    segment_ends(
        &rt,
        b"\0\0\0#emsg\x01\0\0\0\xff\xff\xff\xff\0\0\0\0\0\0\0\0\0\0\0\0\0\0\0\0a\0\0",
        0,
        0,
        6,
        0,
    )?;
    segment_ends(
        &rt,
        b"\0\0\0\x1femsg\0\0\0\0b\0\0\0\0\0\0\0\0\0\0\0\0\0\0\0\0\0\0",
        0,
        0,
        6,
        0,
    )?;
    segment_ends(
        &rt,
        b"\0\0\0\x1femsg\0\0\0\0a\0\0\0\0\0\x01\xeek(\x01\0\0\0\0\0\0\0\0",
        0,
        0,
        10,
        0,
    )?;
    segment_ends(
        &rt,
        b"\0\0\0#emsg\x01\0\0\0\0\0\x03\xe8\0\0\x03\xa3R\x94@\x01\0\0\0\0\0\0\0\0a\0\0",
        0,
        0,
        10,
        0,
    )?;
    segment_ends(
        &rt,
        b"\0\0\0#emsg\x01\0\0\0\0\0\0\x01\xff\xff\xff\xff\xff\xff\xff\xff\0\0\0\0\0\0\0\0a\0\0",
        0,
        0,
        10,
        0,
    )?;
    segment_ends(
        &rt,
        b"\0\0\0\x1femsg\0\0\0\0a\0\0\0\0\0\x01\0\0\0\0\xeek(\x01\0\0\0\0",
        0,
        0,
        10,
        0,
    )?;
    segment_ends(
        &rt,
        b"\0\0\0#emsg\x01\0\0\0\0\0\0\x01\0\0\0\0\0\0\0\0\xeek(\x01\0\0\0\0a\0\0",
        0,
        0,
        10,
        0,
    )?;
    segment_ends(
        &rt,
        b"\0\0\0#emsg\x01\0\0\0\0\0\x03\xe8\0\0\0\0\0\0\x07\xcf\0\0\0\0\0\0\0\0a\0\0",
        0,
        0,
        9,
        0,
    )?;
    segment_ends(
        &rt,
        b"\0\0\0#emsg\x01\0\0\0\0\0\x03\xe8\0\0\0\0\0\0\x07\xcf\xff\xff\xff\xff\0\0\0\0a\0\0",
        0,
        0,
        9,
        0,
    )?;
    segment_ends(
        &rt,
        b"\0\0\0\x1femsg\0\0\0\0a\0\0\0\0\0\x01\xeek'\xfd\0\0\0\0\0\0\0\0",
        0,
        0,
        10,
        0,
    )?;
    segment_gives(
        &rt,
        b"\0\0\0\x1femsg\0\0\0\0a\0\0\0\0\0\x01\xeek'\xfc\xeek(\0\0\0\0\0",
        event(
            Some(0),
            Some(0),
            4_000_000_000_000,
            Some(4_000_000_000_000),
            4000,
            (31, 0, false),
        )?,
    )?;
    segment_gives(
        &rt,
        b"\0\0\0#emsg\x01\0\0\0\0\x98\x96\x80\0\x8e\x1b\xc9\xbf\x04'\x0f\0\0\0\0\0\0\0\0a\0\0",
        event(
            Some(0),
            Some(0),
            3_999_999_998_000,
            Some(0),
            4000,
            (35, 0, false),
        )?,
    )
}

// Places count from the first byte of the media buffer.
#[test]
fn places(rt: HostRuntime) -> Result<(), Fail> {
    segment_ends(
        &rt,
        b"........\0\0\0!emsg\0\0\0\0a\0\0\0\0\x03\xe8\0\0\x01\xf4\0\0\0\xfa\0\0\0\x07ok",
        8,
        1,
        0,
        0,
    )?;
    segment_ends(&rt, b"........", 8, 0, 0, 0)?;
    segment_ends(&rt, b"........\0\0\0", 8, 0, 7, 8)?;
    segment_ends(
        &rt,
        b"........\0\0\0!emsg\0\0\0\0a\0\0\0\0\x03\xe8\0\0\x01\xf4\0\0\0\xfa\0\0\0\x07ok\0\0\0\x09free",
        8,
        1,
        7,
        41,
    )?;
    segment_ends(
        &rt,
        b"........\0\0\0!emsg\0\0\0\0a\0\0\0\0\x03\xe8\0\0\x01\xf4\0\0\0\xfa\0\0\0\x07ok\0\0\0\x01free\xff\xff\xff\xff\xff\xff\xff\xff",
        8,
        1,
        7,
        41,
    )?;
    segment_ends(
        &rt,
        b"........\0\0\0!emsg\0\0\0\0a\0\0\0\0\x03\xe8\0\0\x01\xf4\0\0\0\xfa\0\0\0\x07ok\0\0\0\x1eemsg\0\0\0\0a\0\0\0\0\x03\xe8\0\0\0\0\0\0\0\0\0\0\0\0\0\0&emsg\x01\0\0\0\0\0\x03\xe8\0\0\0\0\0\0#(\0\0\0\xfa\0\0\0\x08a\0\0yes",
        8,
        1,
        8,
        41,
    )?;
    segment_ends(
        &rt,
        b"........\0\0\0\x08free\0\0\0\x1femsg\0\0\0\0a\0\0\0\0\0\0\0\0\0\0\0\0\0\0\0\0\0\0",
        8,
        0,
        6,
        16,
    )?;
    segment_ends(
        &rt,
        b"........\0\0\0!emsg\0\0\0\0a\0\0\0\0\x03\xe8\0\0\x01\xf4\0\0\0\xfa\0\0\0\x07ok\0\0\0&emsg\x01\0\0\0\0\0\x03\xe8\0\0\0\0\0\0#(\0\0\0\xfa\0\0\0\x08a\0\0yes\0\0\0#emsg\x01\0\0\0\0\0\x03\xe8\0\0\0\0\0\0\0\0\0\0\0\0\0\0\0\0a\0\0",
        8,
        2,
        9,
        79,
    )?;
    segment_ends(
        &rt,
        b"........\0\0\0!emsg\0\0\0\0a\0\0\0\0\x03\xe8\0\0\x01\xf4\0\0\0\xfa\0\0\0\x07ok\0\0\0\x1femsg\0\0\0\0a\0\0\0\0\0\x01\xeek(\x01\0\0\0\0\0\0\0\0\0\0\0&emsg\x01\0\0\0\0\0\x03\xe8\0\0\0\0\0\0#(\0\0\0\xfa\0\0\0\x08a\0\0yes",
        8,
        1,
        10,
        41,
    )?;
    segment_ends(
        &rt,
        b"........\0\0\0!emsg\0\0\0\0a\0\0\0\0\x03\xe8\0\0\x01\xf4\0\0\0\xfa\0\0\0\x07ok\0\0\0\x1femsg\0\0\0\0a\0\0\0\0\0\x01\xeek'\xfd\0\0\0\0\0\0\0\0",
        8,
        1,
        10,
        41,
    )?;
    segment_ends(
        &rt,
        b"\0\0\0!emsg\0\0\0\0a\0\0\0\0\x03\xe8\0\0\x01\xf4\0\0\0\xfa\0\0\0\x07ok\0\0\0\x09free",
        33,
        0,
        7,
        33,
    )?;
    segment_ends(
        &rt,
        b"\0\0\0!emsg\0\0\0\0a\0\0\0\0\x03\xe8\0\0\x01\xf4\0\0\0\xfa\0\0\0\x07ok\0\0\0",
        0,
        1,
        7,
        33,
    )
}
