// The two records of a sheet, as their bytes have them.
ghost use Rattle.std.specs.Prelude.{◌≡◌};
ghost use Rattle.std.specs.Option.{option_map};
ghost use Rattle.sheet.specs.SheetRecords.{es, es_record, ev, ev_record};

use catalogue::Pair;

// An `ES` record, and its length.
#[derive(Clone, Copy)]
pub struct EsRecord<'a> {
    pub timescale: u32,
    pub offset: u64,
    pub pair: Pair<'a>,
    pub length: u32,
}

impl<'a> EsRecord<'a> {
    // The record at the front of the bytes, unless the mark is another or the record is cut.
    pub(crate) fn read(bytes: &'a [u8]) -> Option<EsRecord<'a>>
        ensures { option_map es result ≡ es_record bytes.now }
    {
        let [
            b'E',
            b'S',
            t0,
            t1,
            t2,
            t3,
            o0,
            o1,
            o2,
            o3,
            o4,
            o5,
            o6,
            o7,
            scheme,
            value,
            rest @ ..,
        ] = bytes
        else {
            return None;
        };
        let pair = Pair::front(rest, *scheme, *value)?;
        Some(EsRecord {
            timescale: u32::from_be_bytes([*t0, *t1, *t2, *t3]),
            offset: u64::from_be_bytes([*o0, *o1, *o2, *o3, *o4, *o5, *o6, *o7]),
            pair,
            length: 16 + u32::from(*scheme) + u32::from(*value),
        })
    }
}

// An `EV` record: the size is its message's length.
#[derive(Clone, Copy)]
pub struct EvRecord<'a> {
    pub flags: u8,
    pub time: u64,
    pub duration: u32,
    pub id: u32,
    pub size: u16,
    pub message: &'a [u8],
}

impl<'a> EvRecord<'a> {
    // The record at the front of the bytes, unless the mark is another or the record is cut.
    pub(crate) fn read(bytes: &'a [u8]) -> Option<EvRecord<'a>>
        ensures { option_map ev result ≡ ev_record bytes.now }
    {
        let [
            b'E',
            b'V',
            flags,
            p0,
            p1,
            p2,
            p3,
            p4,
            p5,
            p6,
            p7,
            d0,
            d1,
            d2,
            d3,
            i0,
            i1,
            i2,
            i3,
            l0,
            l1,
            rest @ ..,
        ] = bytes
        else {
            return None;
        };
        let size = u16::from_be_bytes([*l0, *l1]);
        let message = rest.get(..usize::from(size))?;
        Some(EvRecord {
            flags: *flags,
            time: u64::from_be_bytes([*p0, *p1, *p2, *p3, *p4, *p5, *p6, *p7]),
            duration: u32::from_be_bytes([*d0, *d1, *d2, *d3]),
            id: u32::from_be_bytes([*i0, *i1, *i2, *i3]),
            size,
            message,
        })
    }
}
