// A run of a run sheet.
use crate::openings::Script;
use event::Refusal;
use player::Player;
use sink::RecordList;

pub mod methods;

// How far a run has come: before its first line, among the others, or behind its last.
#[derive(Clone, Copy)]
pub(crate) enum Stage {
    First,
    Middle,
    Ended,
}

// What is still read, a player and its record list; how many dispatches of the list were reported; how many records were counted, and how the last of them went, until that is reported.
#[derive(Drop)]
pub struct Run<'a, 't, 'p> {
    script: Option<Script<'a>>,
    player: &'p mut Player<'t>,
    list: &'p mut RecordList<'t>,
    shown: usize,
    count: u64,
    done: Result<(), Refusal>,
    stage: Stage,
}
