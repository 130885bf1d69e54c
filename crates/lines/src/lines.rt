// What a line holds.
ghost use Rattle.std.specs.Prelude.{◌≡◌, [], ◌∷◌};
ghost use Rattle.event.specs.Numbers.{refusal};
ghost use Rattle.lines.specs.Refusals.{refusals};

use event::{Dispatch, Refusal};

// One line: the first; a dispatch; the refusal of a record, with its number and that of the fault that it carries; the last.
#[derive(Clone, Copy)]
pub enum Line {
    First,
    Cue(Dispatch),
    Refused {
        record: u64,
        number: u8,
        fault: Option<u8>,
    },
    Last {
        playhead: u64,
        kept: usize,
    },
}

impl Line {
    // The line of a refusal, with the number of its record.
    pub fn refused(count: u64, why: Refusal) -> Line
        ensures { result ∷ [] ≡ refusals count (refusal {X = Unit {0}} why) }
    {
        let number = why.number();
        let fault = match why {
            Refusal::AtFault(fault) => Some(fault.defect.number()),
            _ => None,
        };
        Line::Refused {
            record: count,
            number,
            fault,
        }
    }
}
