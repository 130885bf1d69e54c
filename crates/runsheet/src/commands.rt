// The commands of a run sheet.
pub mod reading;

use event::Mode;
use media::Times;

// What a record after the catalogue asks for; a sheet or a segment is given by the places in the media buffer where it begins and ends.
#[derive(Clone, Copy, PartialEq, Eq, Debug)]
pub enum Command {
    Follow {
        stream: u8,
        mode: Mode,
    },
    Leave {
        stream: u8,
    },
    Play {
        to: u64,
    },
    Seek {
        to: u64,
    },
    Evict {
        from: u64,
        to: u64,
    },
    DrawSheet {
        start: u64,
        from: usize,
        to: usize,
    },
    DrawSegment {
        start: u64,
        times: Times,
        from: usize,
        to: usize,
    },
}
