// cues: runs the run sheet on standard input, and prints the lines that it reports.
#![tactic(auto)]

use player::{Kept, Player, Tables, UsedId};
use run::{Opening, Run};
use sink::{NO_DISPATCH, RecordList};
use std::io;
use std::io::{BufWriter, Read, Write};

// Prints each line of a run as it is reported.
fn print_lines<'a, 't, 'p, W: Write>(
    opening: Opening<'a>,
    player: &'p mut Player<'t>,
    list: &'p mut RecordList<'t>,
    out: &mut W,
) -> io::Result<()> {
    for line in Run::new(opening, player, list) {
        writeln!(out, "{line}")?;
    }
    Ok(())
}

// Runs a run sheet with places for 64 events, 256 ids and 256 dispatches.
fn run_sheet<W: Write>(media: &[u8], out: &mut W) -> io::Result<()> {
    let mut kept = [Kept::EMPTY; 64];
    let mut used = [UsedId::EMPTY; 256];
    let Ok(tables) = Tables::new(&mut kept, &mut used) else {
        unreachable()
    };
    let opening = Opening::new(media);
    let mut player = Player::new(tables, opening.streams());
    let mut slots = [NO_DISPATCH; 256];
    let mut list = RecordList::new(&mut slots);
    print_lines(opening, &mut player, &mut list, out)
}

// Reads the run sheet whole; one byte more than a media buffer has tells that it is too long.
fn play_out(rt: &HostRuntime) -> anyhow::Result<()> {
    let mut media = Vec::new(rt.alloc());
    rt.stdin().take(65_537).read_to_end(&mut media)?;
    let mut out = BufWriter::new(rt.alloc(), rt.stdout())?;
    run_sheet(&media, &mut out)?;
    out.flush()?;
    Ok(())
}

fn main(rt: HostRuntime) -> anyhow::Result<()> {
    play_out(&rt)
}
