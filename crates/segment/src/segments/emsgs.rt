// The fields of emsg boxes, as their bytes have them.
ghost use Rattle.std.specs.Prelude.{◌≡◌};
ghost use Rattle.std.specs.Option.{option_map};
ghost use Rattle.segment.specs.Emsgs.{closed, emsg_of, emsg_one, emsg_zero, fields, names, shut, texts};

use crate::timings::Version;
use catalogue::Pair;

// A string, and what stands behind the 0 byte that closes it.
#[derive(Clone, Copy)]
pub struct Closed<'a> {
    text: &'a [u8],
    rest: &'a [u8],
}

// A scheme and a value, and what stands behind them.
#[derive(Clone, Copy)]
pub struct Names<'a> {
    pair: Pair<'a>,
    rest: &'a [u8],
}

// The version, and the fields behind it and the flags.
#[derive(Clone, Copy)]
pub struct EmsgFields<'a> {
    pub version: Version,
    pub pair: Pair<'a>,
    pub timescale: u32,
    pub time: u64,
    pub duration: u32,
    pub id: u32,
    pub message: &'a [u8],
}

impl<'a> Closed<'a> {
    // The string at the front of the bytes, unless no 0 byte closes it.
    fn read(bytes: &'a [u8]) -> Option<Closed<'a>>
        ensures { option_map closed result ≡ shut bytes.now }
    {
        let end = bytes.iter().position(|byte| *byte == 0)?;
        Some(Closed {
            text: &bytes[..end],
            rest: &bytes[end + 1..],
        })
    }
}

impl<'a> Names<'a> {
    // The two strings at the front of the bytes, unless one is not closed.
    fn read(bytes: &'a [u8]) -> Option<Names<'a>>
        ensures { option_map names result ≡ texts bytes.now }
    {
        let scheme = Closed::read(bytes)?;
        let value = Closed::read(scheme.rest)?;
        Some(Names {
            pair: Pair {
                scheme: scheme.text,
                value: value.text,
            },
            rest: value.rest,
        })
    }
}

impl<'a> EmsgFields<'a> {
    // The fields of version 0: the strings stand in front.
    fn zero(bytes: &'a [u8]) -> Option<EmsgFields<'a>>
        ensures { option_map fields result ≡ emsg_zero bytes.now }
    {
        let names = Names::read(bytes)?;
        let (timescale, rest) = names.rest.split_first_chunk::<4>()?;
        let (time, rest) = rest.split_first_chunk::<4>()?;
        let (duration, rest) = rest.split_first_chunk::<4>()?;
        let (id, message) = rest.split_first_chunk::<4>()?;
        Some(EmsgFields {
            version: Version::Zero,
            pair: names.pair,
            timescale: u32::from_be_bytes(*timescale),
            time: u64::from(u32::from_be_bytes(*time)),
            duration: u32::from_be_bytes(*duration),
            id: u32::from_be_bytes(*id),
            message,
        })
    }

    // The fields of version 1: the strings stand behind the numbers.
    fn one(bytes: &'a [u8]) -> Option<EmsgFields<'a>>
        ensures { option_map fields result ≡ emsg_one bytes.now }
    {
        let (timescale, rest) = bytes.split_first_chunk::<4>()?;
        let (time, rest) = rest.split_first_chunk::<8>()?;
        let (duration, rest) = rest.split_first_chunk::<4>()?;
        let (id, rest) = rest.split_first_chunk::<4>()?;
        let names = Names::read(rest)?;
        Some(EmsgFields {
            version: Version::One,
            pair: names.pair,
            timescale: u32::from_be_bytes(*timescale),
            time: u64::from_be_bytes(*time),
            duration: u32::from_be_bytes(*duration),
            id: u32::from_be_bytes(*id),
            message: names.rest,
        })
    }

    // The fields of a version, unless they do not fit the bytes.
    pub(crate) fn read(version: Version, bytes: &'a [u8]) -> Option<EmsgFields<'a>>
        ensures { option_map fields result ≡ emsg_of version bytes.now }
    {
        match version {
            Version::Zero => EmsgFields::zero(bytes),
            Version::One => EmsgFields::one(bytes),
        }
    }
}
