// The text of a line.
ghost use Rattle.std.specs.Prelude.{◌≡◌, Some};
ghost use Rattle.std.specs.Option.{option_map};
ghost use Rattle.lines.specs.Texts.{cue, letter, milliseconds, or_dash, text};

use crate::lines::Line;
use event::{Dispatch, Trigger};
use std::fmt;

// A number, or a dash where there is none.
#[derive(Clone, Copy)]
struct OrDash {
    number: Option<u64>,
}

impl fmt::Display for OrDash {
    ghost output = { λ o. Some (or_dash o.number) };

    fn fmt<W: fmt::Write>(&self, f: &mut fmt::Formatter<W>) -> fmt::Result {
        match self.number {
            None => write!(f, "-"),
            Some(number) => write!(f, "{number}"),
        }
    }
}

// The letter of what triggered a dispatch.
fn letter(trigger: Trigger) -> &'static str
    ensures { result.now ≡ letter trigger }
{
    match trigger {
        Trigger::Receive => "R",
        Trigger::Start => "S",
    }
}

// The id of a dispatch.
fn id(dispatch: Dispatch) -> OrDash
    ensures { result.number ≡ dispatch.id }
{
    OrDash {
        number: dispatch.id.map(u64::from),
    }
}

// The duration of a dispatch, in milliseconds.
fn duration(dispatch: Dispatch) -> OrDash
    ensures { result.number ≡ option_map milliseconds dispatch.span.duration }
{
    OrDash {
        number: dispatch.span.duration.map(|duration| duration.ms()),
    }
}

impl fmt::Display for Line {
    ghost output = { λ l. Some (text l) };

    fn fmt<W: fmt::Write>(&self, f: &mut fmt::Formatter<W>) -> fmt::Result {
        match *self {
            Line::First => write!(f, "cues 1"),
            Line::Cue(dispatch) => {
                let position = dispatch.position.ms();
                let letter = letter(dispatch.trigger);
                let stream = dispatch.stream;
                let id = id(dispatch);
                let start = dispatch.span.start.ms();
                let duration = duration(dispatch);
                let length = dispatch.message.length;
                write!(
                    f,
                    "{position} {letter} {stream} {id} {start} {duration} {length}"
                )
            }
            Line::Refused {
                record,
                number,
                fault,
            } => match fault {
                None => write!(f, "refused {record} {number}"),
                Some(fault) => write!(f, "refused {record} {number} {fault}"),
            },
            Line::Last { playhead, kept } => write!(f, "playhead {playhead} kept {kept}"),
        }
    }
}
