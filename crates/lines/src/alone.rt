// The lines of a dispatch and of a refusal, each as a value of its own.
ghost use Rattle.std.specs.Prelude.{Some};
ghost use Rattle.event.specs.Numbers.{refusal};
ghost use Rattle.lines.specs.Refusals.{refusals};
ghost use Rattle.lines.specs.Texts.{cue, text_of_first};

use crate::lines::Line;
use event::{Dispatch, Refusal};
use std::fmt;

// A dispatch: position, R or S, stream, id, start, duration, message length; what it has not is a dash.
#[derive(Clone, Copy)]
pub struct CueLine {
    pub dispatch: Dispatch,
}

impl fmt::Display for CueLine {
    ghost output = { λ c. Some (cue c.dispatch) };

    fn fmt<W: fmt::Write>(&self, f: &mut fmt::Formatter<W>) -> fmt::Result {
        let line = Line::Cue(self.dispatch);
        write!(f, "{line}")
    }
}

// A refusal: the record that was refused, counted from 1, the number, and after 26 the fault's number.
#[derive(Clone, Copy)]
pub struct RefusedLine {
    pub record: u64,
    pub refusal: Refusal,
}

impl fmt::Display for RefusedLine {
    ghost output = { λ r. Some (text_of_first (refusals r.record (refusal {X = Unit {0}} r.refusal))) };

    fn fmt<W: fmt::Write>(&self, f: &mut fmt::Formatter<W>) -> fmt::Result {
        let line = Line::refused(self.record, self.refusal);
        write!(f, "{line}")
    }
}
