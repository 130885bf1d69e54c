// Forgetting events by when they arrived.
ghost use Rattle.std.specs.Prelude.{◌≡◌, Bool, false, length, filter, is_ok};
ghost use Rattle.event.specs.Numbers.{answer};
ghost use Rattle.tables.specs.declared.elements.Kept.{Kept as Item};
ghost use Rattle.calls.specs.Draws.{with_kept};
ghost use Rattle.calls.specs.Evicts.{evicts};
ghost use Rattle.player.specs.Players.{Lent, state};
ghost use Rattle.player.specs.Closures.{Computes};
ghost use Rattle.tables.specs.Tables.{without};

use super::Player;
use event::Refusal;
use tables::Kept;

impl Player<'_> {
    // Removes the kept events that pass a test, and answers how many they were; used ids stay.
    pub(crate) fn forget<F: Fn(&Kept) -> bool>(&mut self, test: F) -> usize
        requires callable { F.IsAlwaysCallable test }
        requires computes { (p : Item → Bool) × Computes F.Fn p test }
        ensures value { (p : Item → Bool) → Computes F.Fn p test → result ≡ length (filter p (state self.old).kept) }
        ensures after { (p : Item → Bool) → Computes F.Fn p test → state self.new ≡ with_kept (state self.old) (without p (state self.old).kept) }
        ensures lent { Lent self.old self.new }
    {
        let before = self.kept.len;
        self.kept.remove(test);
        self.head.kept_ids = self.kept.count_ids();
        before - self.kept.len
    }

    // Removes the kept events that arrived at one time or later, and before another; used ids stay.
    pub fn evict(&mut self, from: u64, to: u64) -> Result<usize, Refusal>
        ensures after { (answer result, state self.new) ≡ evicts from to (state self.old) }
        ensures lent { Lent self.old self.new }
        ensures same { is_ok result ≡ false → self.new ≡ self.old }
    {
        if to < from {
            return Err(Refusal::RangeBackward);
        }
        Ok(self.forget(|event| (from..to).contains(&event.arrival.ms())))
    }
}
