// What is shown of a player and its sink.
use crate::twins::{Outcome, Tally};
use event::Refusal;
use lines::Line;
use std::io;
use std::io::Write;

// Writes the dispatches, the playhead and the tally, or the number of a refusal.
pub(crate) fn show<W: Write>(outcome: Result<Outcome, Refusal>, out: &mut W) -> io::Result<()> {
    match outcome {
        Ok(outcome) => {
            show_told(outcome, out)?;
            let playhead = outcome.playhead;
            writeln!(out, "playhead {playhead}")?;
            show_tally(outcome.tally, outcome.kept, out)
        }
        Err(refusal) => {
            let number = refusal.number();
            writeln!(out, "refused {number}")
        }
    }
}

// Writes the dispatches.
fn show_told<W: Write>(outcome: Outcome, out: &mut W) -> io::Result<()> {
    for dispatch in outcome.told.iter().take(outcome.count) {
        let line = Line::Cue(*dispatch);
        writeln!(out, "{line}")?;
    }
    Ok(())
}

// Writes how many records were drawn, and what became of them.
fn show_tally<W: Write>(tally: Tally, kept: usize, out: &mut W) -> io::Result<()> {
    let Tally {
        drawn,
        passed,
        over,
        repeats,
        dispatched,
        evicted,
        left,
    } = tally;
    writeln!(out, "drawn {drawn}")?;
    writeln!(
        out,
        "= passed {passed} + over {over} + repeats {repeats} + dispatched {dispatched} + kept {kept} + evicted {evicted} + left {left}"
    )
}
