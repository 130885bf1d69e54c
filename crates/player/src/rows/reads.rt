// Reading a table.
ghost use Rattle.std.specs.Prelude.{◌≡◌, length, filter};
ghost use Rattle.tables.specs.Elements.{active_at, id_before, named};
ghost use Rattle.tables.specs.Tables.{any, tied};
ghost use Rattle.calls.specs.State.{ids};
ghost use Rattle.player.specs.Rows.{items};

use super::Rows;
use event::Time;
use tables::orders::Ordered;
use tables::{Kept, UsedId};

impl<T: Ordered> Rows<'_, T> {
    // Its elements, in their order.
    pub(crate) fn items(&self) -> &[T]
        ensures { result.now ≡ items self.now }
    {
        &self.slots[..self.len]
    }
}

impl Rows<'_, UsedId> {
    // Whether an id stands in it.
    pub(crate) fn holds(&self, name: UsedId) -> bool
        ensures { result ≡ any (tied id_before name) (items self.now) }
    {
        self.items().binary_search(&name).is_ok()
    }
}

impl Rows<'_, Kept> {
    // Whether an event of this name stands in it.
    pub(crate) fn has_named(&self, name: UsedId) -> bool
        ensures { result ≡ any (named name) (items self.now) }
    {
        self.items().iter().any(|event| event.is_named(name))
    }

    // How many of its events have an id.
    pub(crate) fn count_ids(&self) -> usize
        ensures { result ≡ ids (items self.now) }
    {
        let mut count = 0;
        for event in self.items() {
            count += usize::from(event.id.is_some());
        }
        count
    }

    // How many of its events are active at a time.
    pub(crate) fn count_active(&self, time: Time) -> usize
        ensures { result ≡ length (filter (active_at time.ms) (items self.now)) }
    {
        self.items()
            .iter()
            .filter(|event| event.span.is_active(time))
            .count()
    }
}
