// Stretches, timings and catalogues: what is made, and what is refused.
use super::{counted, listed, stretched, timed, timing};
use std::test::Fail;

// Stretches that are inside the media buffer or not.
#[test]
fn stretches(rt: HostRuntime) -> Result<(), Fail> {
    stretched(&rt, b"", 0, 0, 0)?;
    stretched(&rt, b"abc", 0, 3, 0)?;
    stretched(&rt, b"abc", 3, 3, 0)?;
    stretched(&rt, b"abc", 1, 2, 0)?;
    stretched(&rt, b"abc", 0, 4, 5)?;
    stretched(&rt, b"abc", 2, 1, 5)?;
    stretched(&rt, b"abc", 4, 4, 5)?;
    stretched(&rt, b"", 1, 1, 5)?;
    stretched(&rt, b"", 1, 0, 5)
}

// Timings that are made, and the reasons why they are not.
#[test]
fn timings(rt: HostRuntime) -> Result<(), Fail> {
    timed(&rt, 0, 0, 1, 0, 1, 0)?;
    timed(&rt, 5, 5, 10_000_000, 0, 10_000_000, 0)?;
    timed(&rt, 4_000_000_000, 0, 1, 0, 1, 0)?;
    timed(
        &rt,
        18_446_744_073_709_551_615,
        18_446_744_073_709_551_615,
        1,
        18_446_744_073_709_551_615,
        1,
        0,
    )?;
    timed(&rt, 0, 0, 0, 0, 1, 6)?;
    timed(&rt, 0, 0, 10_000_001, 0, 1, 6)?;
    timed(&rt, 0, 0, 1, 0, 0, 6)?;
    timed(&rt, 0, 0, 1, 0, 10_000_001, 6)?;
    timed(&rt, 0, 1, 0, 0, 1, 6)?;
    timed(&rt, 0, 1, 1, 0, 0, 6)?;
    timed(&rt, 0, 1, 1, 0, 1, 9)?;
    timed(
        &rt,
        18_446_744_073_709_551_614,
        18_446_744_073_709_551_615,
        1,
        0,
        1,
        9,
    )?;
    timed(&rt, 4_000_000_001, 0, 1, 0, 1, 10)?;
    timed(&rt, 18_446_744_073_709_551_615, 0, 10_000_000, 0, 1, 10)?;
    timed(&rt, 4_000_000_000_001, 0, 1000, 0, 1, 10)
}

// Each fraction is rounded down by itself, and the inband offset has no bound.
#[test]
fn starts(rt: HostRuntime) -> Result<(), Fail> {
    counted(
        &rt,
        timing(5, 0, 3, 0, 1)?,
        b"\0\0\0\x1femsg\0\0\0\0a\0\0\0\0\0\x03\0\0\0\x02\0\0\0\0\0\0\0\0",
        2332,
        0,
    )?;
    counted(
        &rt,
        timing(7, 2, 3, 0, 1)?,
        b"\0\0\0\x1femsg\0\0\0\0a\0\0\0\0\0\x03\0\0\0\x02\0\0\0\0\0\0\0\0",
        2332,
        0,
    )?;
    counted(
        &rt,
        timing(0, 0, 1, 2, 3)?,
        b"\0\0\0#emsg\x01\0\0\0\0\0\0\x03\0\0\0\0\0\0\0\x04\0\0\0\0\0\0\0\0a\0\0",
        667,
        0,
    )?;
    counted(
        &rt,
        timing(9, 0, 1, 1, 1)?,
        b"\0\0\0#emsg\x01\0\0\0\0\0\0\x01\0\0\0\0\0\0\0\x01\0\0\0\0\0\0\0\0a\0\0",
        0,
        0,
    )?;
    counted(
        &rt,
        timing(0, 0, 1, 18_446_744_073_709_551_615, 1)?,
        b"\0\0\0\x1femsg\0\0\0\0a\0\0\0\0\0\x01\0\0\0\x01\0\0\0\0\0\0\0\0",
        1000,
        0,
    )?;
    counted(
        &rt,
        timing(0, 0, 1, 18_446_744_073_709_551_615, 1)?,
        b"\0\0\0#emsg\x01\0\0\0\0\0\0\x01\0\0\0\0\0\0\0\x01\0\0\0\0\0\0\0\0a\0\0",
        0,
        9,
    )?;
    counted(
        &rt,
        timing(0, 0, 1, 18_446_744_073_709_551_615, 1)?,
        b"\0\0\0#emsg\x01\0\0\0\0\0\0\x01\0\0\0\0\xeek(\x01\0\0\0\0\0\0\0\0a\0\0",
        0,
        10,
    )?;
    counted(
        &rt,
        timing(0, 0, 1, 4_000_000_000, 1)?,
        b"\0\0\0#emsg\x01\0\0\0\0\0\0\x01\0\0\0\0\xeek(\0\0\0\0\0\0\0\0\0a\0\0",
        0,
        0,
    )?;
    counted(
        &rt,
        timing(4_000_000_000, 0, 1, 0, 1)?,
        b"\0\0\0\x1femsg\0\0\0\0a\0\0\0\0\0\x01\0\0\0\0\0\0\0\0\0\0\0\0",
        4_000_000_000_000,
        0,
    )?;
    counted(
        &rt,
        timing(4_000_000_000, 0, 1, 0, 1)?,
        b"\0\0\0\x1femsg\0\0\0\0a\0\0\0\0\x03\xe8\0\0\0\x01\0\0\0\0\0\0\0\0",
        0,
        10,
    )?;
    counted(
        &rt,
        timing(0, 0, 1, 0, 1)?,
        b"\0\0\0#emsg\x01\0\0\0\0\0\0\x01\0\0\0\0\xeek(\0\0\0\0\0\0\0\0\0a\0\0",
        4_000_000_000_000,
        0,
    )
}

// Catalogues: the number of their streams, or the reason why they are refused.
#[test]
fn catalogues(rt: HostRuntime) -> Result<(), Fail> {
    listed(&rt, b"", 0, 0, 0)?;
    listed(&rt, b"SV\x01\0a", 0, 1, 0)?;
    listed(&rt, b"SV\x01\0aSV\x01\x01avSV\x02\0av", 0, 3, 0)?;
    listed(&rt, b"........SV\x01\0a", 8, 1, 0)?;
    listed(&rt, b"S", 0, 0, 1)?;
    listed(&rt, b"sv\x01\0a", 0, 0, 1)?;
    listed(&rt, b"SV\x01", 0, 0, 1)?;
    listed(&rt, b"SV\x02\0a", 0, 0, 1)?;
    listed(&rt, b"SV\x01\x01a", 0, 0, 1)?;
    listed(&rt, b"SV\x01\0aXX", 0, 0, 1)?;
    listed(&rt, b"SV\0\0", 0, 0, 2)?;
    listed(&rt, b"SV\0\x01v", 0, 0, 2)?;
    listed(&rt, b"SV\x02\0a\0", 0, 0, 2)?;
    listed(&rt, b"SV\x01\x01a\0", 0, 0, 2)?;
    listed(&rt, b"SV\x01\0aSV\x01\0bSV\x01\0a", 0, 0, 3)?;
    listed(&rt, b"SV\x01\x01avSV\x01\x01av", 0, 0, 3)
}
