// A run sheet that has every mark, cut behind each of its bytes.
use crate::records::run_sheet;
use crate::reports::reported;
use std::alloc::Global;
use std::process::Abort;
use std::test::*;

// A record: the number of its refusal where it is cut behind its mark, the line that it reports where it is whole, and then the playhead and how many events are kept.
#[derive(Clone, Copy)]
struct Step<'a> {
    record: &'a str,
    cut: u8,
    line: &'a str,
    playhead: u64,
    kept: u32,
}

// The step of these fields.
fn whole<'a>(record: &'a str, cut: u8, line: &'a str, playhead: u64, kept: u32) -> Step<'a> {
    Step {
        record,
        cut,
        line,
        playhead,
        kept,
    }
}

// The bytes of the steps.
fn bytes(heap: Global, steps: &[Step]) -> Result<Vec<u8>, Fail> {
    let mut bytes = Vec::new(heap);
    for step in steps {
        bytes.extend_from_slice(&run_sheet(heap, step.record)?)?;
    }
    Ok(bytes)
}

// The lines of the steps of which so many bytes are left: those of the whole ones, the refusal of the one that is cut, and the last. A lone last byte is no mark yet.
fn lines(heap: Global, steps: &[Step], to: usize) -> Result<String, Fail> {
    let mut text = String::from_str(heap, "cues 1\n")?;
    let mut left = to;
    let mut playhead = 0;
    let mut kept = 0;
    for (number, step) in (1..=steps.len()).zip(steps) {
        let length = run_sheet(heap, step.record)?.len();
        if left >= length {
            text.push_str(step.line)?;
            playhead = step.playhead;
            kept = step.kept;
        } else if left > 0 {
            let cut = if left == 1 { 30 } else { step.cut };
            writeln!(text, "refused {number} {cut}")?;
        }
        left = left.saturating_sub(length);
    }
    writeln!(text, "playhead {playhead} kept {kept}")?;
    Ok(text)
}

// Every cut of the steps, and the whole of them, reports their lines.
fn every_cut(rt: &impl Abort, heap: Global, steps: &[Step]) -> Result<(), Fail> {
    let media = bytes(heap, steps)?;
    let media = media.as_slice();
    for to in 0..=media.len() {
        let text = reported(heap, &media[0..to])?;
        let expected = lines(heap, steps, to)?;
        assert_eq!(rt; text.as_str(), expected.as_str(), "{}", to);
    }
    Ok(())
}

// Before the catalogue ends no player is made; a cut stream is 1 and any other cut record 30.
#[test]
fn every_mark(rt: HostRuntime) -> Result<(), Fail> {
    let sheet = "MP 1000
                   ES 1000 0 a -
                   EV 7 2000 500 7 aGk=
                   ES 1000 0 b 1
                   EV 2 5 0 9 -";
    let segment = "SG 0 180000 0 90000 0 90000
                     E0 a - 1000 6000 1000 9 go
                     BOX free ....
                     E1 1000 4000 4294967295 10 a - -";
    let steps = [
        whole("SV a -", 1, "", 0, 0),
        whole("SV b 1", 1, "", 0, 0),
        whole("FO 0 2", 30, "", 0, 0),
        whole("FO 1 1", 30, "", 0, 0),
        whole(sheet, 30, "0 R 1 9 1005 - 0\n", 0, 1),
        whole("PL 5000", 30, "3000 S 0 7 3000 500 4\n", 5000, 0),
        whole(segment, 30, "5000 S 0 10 4000 - 0\n", 5000, 1),
        whole("SK 2000", 30, "", 2000, 1),
        whole("EX 2000 2001", 30, "", 2000, 0),
        whole("LV 1", 30, "", 2000, 0),
        whole("LV 1", 30, "refused 11 19\n", 2000, 0),
    ];
    every_cut(&rt, rt.alloc(), &steps)
}
