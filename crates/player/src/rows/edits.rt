// Changing a table.
ghost use Rattle.std.specs.Prelude.{◌≡◌, ◌+◌, ◌<◌, ◌≤◌, Bool, length, if◌then◌else◌};
ghost use Rattle.calls.specs.Draws.{marked};
ghost use Rattle.tables.specs.Elements.{has_id};
ghost use Rattle.tables.specs.Tables.{placed, without};
ghost use Rattle.player.specs.Rows.{Behind, items};
ghost use Rattle.player.specs.Closures.{Computes};

use super::Rows;
use tables::orders::Ordered;
use tables::{Kept, UsedId};

impl<T: Ordered> Rows<'_, T> {
    // Puts x in front of the first element that it is before.
    pub(crate) fn insert(&mut self, x: T)
        requires { self.old.len < length self.old.slots.now }
        ensures items { items self.new ≡ placed T.before x (items self.old) }
        ensures behind { Behind self.old self.new }
    {
        let place = self.items().partition_point(|y| !x.is_before(*y));
        let len = self.len;
        self.slots[len] = x;
        self.slots[place..=len].rotate_right(1);
        self.len = len + 1;
    }

    // Removes what passes a test; the rest moves to the front, in its order.
    pub(crate) fn remove<F: Fn(&T) -> bool>(&mut self, test: F)
        requires callable { F.IsAlwaysCallable test }
        requires computes { (p : T → Bool) × Computes F.Fn p test }
        ensures items { (p : T → Bool) → Computes F.Fn p test → items self.new ≡ without p (items self.old) }
        ensures behind { Behind self.old self.new }
    {
        let len = self.len;
        let mut left = 0;
        self.len = 0;
        let slots = &mut *self.slots;
        for i in 0..len {
            if !test(&slots[i]) {
                slots[left] = slots[i];
                left += 1;
            }
        }
        self.len = left;
    }
}

impl Rows<'_, UsedId> {
    // Marks the id of an event as used, if it has one.
    pub(crate) fn mark(&mut self, event: Kept)
        requires { length (items self.old) + (if has_id event then 1 else 0) ≤ length self.old.slots.now }
        ensures items { items self.new ≡ marked event (items self.old) }
        ensures behind { Behind self.old self.new }
    {
        if let Some(name) = event.name() {
            self.insert(name);
        }
    }
}
