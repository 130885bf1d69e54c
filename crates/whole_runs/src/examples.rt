// The bundled run sheets.
use crate::records::run_sheet;
use crate::reports::reports;
use std::process::Abort;
use std::test::*;

// The bundled run sheet of this name reports these lines; its bytes are printed, so that they can be held against those of its file.
fn example(
    rt: &(impl Abort + AllocGlobal + Print),
    name: &str,
    sheet: &str,
    lines: &str,
) -> Result<(), Fail> {
    let media = run_sheet(rt.alloc(), sheet)?;
    let mut bytes = String::new(rt.alloc());
    for byte in media.as_slice() {
        write!(bytes, "{byte:02x}")?;
    }
    println!(rt; "{name}.run {bytes}")?;
    reports(rt, rt.alloc(), sheet, lines)
}

// The ordinary break.
#[test]
fn example_break(rt: HostRuntime) -> Result<(), Fail> {
    example(
        &rt,
        "break",
        "SV a -
         FO 0 2
         MP 1000
           ES 1000 0 a -
           EV 7 2000 500 7 aGk=
         PL 5000",
        "3000 S 0 7 3000 500 4
         playhead 5000 kept 0",
    )
}

// One event by manifest and by segment.
#[test]
fn example_twice(rt: HostRuntime) -> Result<(), Fail> {
    example(
        &rt,
        "twice",
        "SV ad -
         FO 0 2
         MP 0
           ES 1000 0 ad -
           EV 3 4000 1000 9 -
         SG 0 180000 0 90000 0 90000
           E0 ad - 1000 2000 1000 9 go
         PL 10000",
        "4000 S 0 9 4000 1000 0
         playhead 10000 kept 0",
    )
}

// A jump back and a repeat together.
#[test]
fn example_back(rt: HostRuntime) -> Result<(), Fail> {
    example(
        &rt,
        "back",
        "SV ad -
         FO 0 2
         MP 0
           ES 1000 0 ad -
           EV 3 3000 500 7 -
         PL 5000
         SK 2000
         MP 0
           ES 1000 0 ad -
           EV 3 3000 500 7 -
         PL 5000",
        "3000 S 0 7 3000 500 0
         playhead 5000 kept 0",
    )
}

// A group of equal starts and a nearly full list.
#[test]
fn example_full(rt: HostRuntime) -> Result<(), Fail> {
    example(
        &rt,
        "full",
        "SV ad -
         SV log -
         FO 0 2
         FO 1 1
         MP 0
           ES 1000 0 log -
           EVS 254 1 0 0 0
         MP 0
           ES 1000 0 ad -
           EV 3 2000 100 1 -
           EV 3 3000 100 2 -
           EV 3 3000 100 3 -
         PL 5000",
        "ROW 254 0 0 R 1 - 0 0 0
         2000 S 0 1 2000 100 0
         playhead 2999 kept 2",
    )
}

// On receive beside on start.
#[test]
fn example_modes(rt: HostRuntime) -> Result<(), Fail> {
    example(
        &rt,
        "modes",
        "SV ad -
         SV meta -
         FO 0 2
         FO 1 1
         PL 1000
         MP 0
           ES 1000 0 ad -
           EV 3 1500 200 1 -
           EV 3 500 100 2 -
           ES 1000 0 meta -
           EV 2 9000 0 1 -
         PL 2000",
        "1000 R 1 1 9000 - 0
         1500 S 0 1 1500 200 0
         playhead 2000 kept 0",
    )
}

// A broken segment and other refusals.
#[test]
fn example_broken(rt: HostRuntime) -> Result<(), Fail> {
    example(
        &rt,
        "broken",
        "SV ad -
         FO 0 2
         SG 0 0 0 1000 0 1000
           E0 ad - 1000 500 100 1 -
           IN 0x00000020656d73670000000061640000000003e8
         PL 1000
         FO 5 2
         LV 3
         PL 500
         SK 4000000000001
         EX 9 3",
        "refused 3 26 7
         500 S 0 1 500 100 0
         refused 5 16
         refused 6 16
         refused 7 21
         refused 8 20
         refused 9 25
         playhead 1000 kept 0",
    )
}
