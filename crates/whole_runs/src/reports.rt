// The lines that run sheets report, beside those that are expected.
use crate::records::{number, run_sheet, word};
use player::{Kept, Player, Tables, UsedId};
use run::{Opening, Run};
use sink::{NO_DISPATCH, RecordList};
use std::alloc::Global;
use std::process::Abort;
use std::test::*;

// Adds each line of a run.
fn add_lines<'a, 't, 'p>(
    text: &mut String,
    opening: Opening<'a>,
    player: &'p mut Player<'t>,
    list: &'p mut RecordList<'t>,
) -> Result<(), Fail> {
    for line in Run::new(opening, player, list) {
        writeln!(text, "{line}")?;
    }
    Ok(())
}

// The text that the run of a run sheet reports, with places for 64 events, 256 ids and 256 dispatches.
pub(crate) fn reported(heap: Global, media: &[u8]) -> Result<String, Fail> {
    let mut kept = [Kept::EMPTY; 64];
    let mut used = [UsedId::EMPTY; 256];
    let tables = Tables::new(&mut kept, &mut used)?;
    let opening = Opening::new(media);
    let mut player = Player::new(tables, opening.streams());
    let mut slots = [NO_DISPATCH; 256];
    let mut list = RecordList::new(&mut slots);
    let mut text = String::new(heap);
    add_lines(&mut text, opening, &mut player, &mut list)?;
    Ok(text)
}

// Adds the lines of a row: `ROW`, how many, the first number, and the line, in which `#` stands for the number.
fn add_row(text: &mut String, row: &str) -> Result<(), Fail> {
    let first = number(row, 2)?;
    for n in 0..number(row, 1)? {
        let number = first.wrapping_add(n);
        for (place, word) in row.split_ascii_whitespace().skip(3).enumerate() {
            if place > 0 {
                text.push(' ')?;
            }
            match word.as_bytes() {
                b"#" => write!(text, "{number}")?,
                _ => text.push_str(word)?,
            }
        }
        text.push('\n')?;
    }
    Ok(())
}

// The run sheet reports `cues 1` and then these lines, a row for many.
pub(crate) fn reports(rt: &impl Abort, heap: Global, sheet: &str, lines: &str) -> Result<(), Fail> {
    let mut expected = String::from_str(heap, "cues 1\n")?;
    for line in lines.lines() {
        let line = line.trim_ascii();
        match word(line, 0).as_bytes() {
            b"" => {}
            b"ROW" => add_row(&mut expected, line)?,
            _ => writeln!(expected, "{line}")?,
        }
    }
    let text = reported(heap, &run_sheet(heap, sheet)?)?;
    assert_eq!(rt; text.as_str(), expected.as_str(), "{}", sheet);
    Ok(())
}

// Each case reports what it says: a case is a run sheet, a line `---` and the lines, and an empty line stands behind it.
pub(crate) fn cases(rt: &impl Abort, heap: Global, text: &str) -> Result<(), Fail> {
    for case in text.split("\n\n") {
        let Some((sheet, lines)) = case.split_once("---") else {
            return Err(Fail::new("a case has no lines"));
        };
        reports(rt, heap, sheet, lines)?;
    }
    Ok(())
}
