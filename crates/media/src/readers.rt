// Readers: feeds of the records that stand in a stretch, one after the other.
use crate::stretches::Stretch;
use event::{Event, Fault};

pub mod feed;
pub mod rules;

// A walk over records: their rules, the place that it has come to, and what is known there.
#[derive(Clone, Copy)]
pub struct Walk<R, S> {
    rules: R,
    place: u32,
    state: S,
}

// A feed of the events of a stretch's records: what is next, and the walk behind it.
#[derive(Clone, Copy)]
pub struct Reader<'a, R, S> {
    stretch: Stretch<'a>,
    walk: Walk<R, S>,
    ready: Result<Option<Event>, Fault>,
}
