// The calls on a player, tried: this program shows two players at the same calls, and the tests hold lists of calls to the answers and dispatches that the rules give.
#![tactic(auto)]

mod feeds;
#[cfg(test)]
mod line_tests;
#[cfg(test)]
mod scripts;
mod shows;
mod steps;
#[cfg(test)]
mod tests;
#[cfg(test)]
mod twin_tests;
mod twins;

use shows::show;
use std::io::Write;
use twins::{SEGMENT_FIRST, SHEET_FIRST, on_list, on_log};

// Shows what both players came to.
fn demonstrate(rt: &HostRuntime) -> anyhow::Result<()> {
    let mut out = rt.stdout();
    writeln!(out, "played whole, told to a record list:")?;
    show(on_list(SHEET_FIRST), &mut out)?;
    writeln!(out, "played in stops, told to a byte log:")?;
    show(on_log(SEGMENT_FIRST), &mut out)?;
    out.flush()?;
    Ok(())
}

fn main(rt: HostRuntime) -> anyhow::Result<()> {
    demonstrate(&rt)
}
