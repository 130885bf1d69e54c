// A table over a lent slice: its elements stand at the front, in order.
ghost use Rattle.std.specs.Prelude.{◌≡◌, ◌≤◌, true, length, take};
ghost use Rattle.tables.specs.Tables.{sorted};

use tables::orders::Ordered;

pub mod edits;
pub mod reads;

// The slots, and how many of them are taken.
#[derive(Drop)]
pub struct Rows<'a, T: Ordered> {
    pub(crate) slots: &'a mut [T],
    pub(crate) len: usize,
    ghost within: { len ≤ length slots.now },
    ghost ordered: { sorted T.before (take len slots.now) ≡ true },
}
