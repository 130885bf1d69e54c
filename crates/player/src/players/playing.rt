// Playing kept events.
ghost use Rattle.std.specs.Prelude.{◌≡◌, ◌+◌, ◌≤◌, false, map, length, is_ok, IfOk, filter};
ghost use Rattle.event.specs.Numbers.{answer};
ghost use Rattle.calls.specs.Plays.{Furthest, marked_all, moved, plays, reach, told_by, told_to};
ghost use Rattle.player.specs.Rows.{Behind, items};
ghost use Rattle.calls.specs.Seeks.{seeks};
ghost use Rattle.player.specs.Players.{Lent, state};
ghost use Rattle.calls.specs.State.{ids};
ghost use Rattle.player.specs.Closures.{Pick, Picks};

use super::Player;
use super::drawing::tell_free;
use crate::rows::Rows;
use calls::Played;
use event::{Refusal, Sink, Time, Trigger};
use tables::{Kept, UsedId};

// Tells the kept events that pass a test, in their order and each at its position, and marks their ids as used.
pub(crate) fn tell_picked<F: Fn(&Kept) -> bool, P: Fn(&Kept) -> Time, S: Sink>(
    kept: &[Kept],
    used: &mut Rows<UsedId>,
    picks: &F,
    position: &P,
    sink: &mut S,
)
    requires picks_callable { F.IsAlwaysCallable picks.now }
    requires position_callable { P.IsAlwaysCallable position.now }
    requires fits { (t : Pick) × Picks F.Fn P.Fn t picks.now position.now × (length (filter t.passes kept.now) ≤ (S.held sink.old).free) × (length (items used.old) + ids (filter t.passes kept.now) ≤ length used.old.slots.now) }
    ensures told { (t : Pick) → Picks F.Fn P.Fn t picks.now position.now → S.held sink.new ≡ told_to (S.held sink.old) (map (told_by t.told_at) (filter t.passes kept.now)) }
    ensures items { (t : Pick) → Picks F.Fn P.Fn t picks.now position.now → items used.new ≡ marked_all (filter t.passes kept.now) (items used.old) }
    ensures behind { Behind used.old used.new }
{
    for event in kept {
        if picks(event) {
            tell_free(sink, event.dispatch(position(event), Trigger::Start));
            used.mark(*event);
        }
    }
}

impl Player<'_> {
    // Tells the kept events that pass a test, each at its position; they are no longer kept and their ids are used.
    pub(crate) fn tell_kept<F: Fn(&Kept) -> bool, P: Fn(&Kept) -> Time, S: Sink>(
        &mut self,
        picks: F,
        position: P,
        sink: &mut S,
    ) -> usize
        requires picks_callable { F.IsAlwaysCallable picks }
        requires position_callable { P.IsAlwaysCallable position }
        requires fits { (t : Pick) × Picks F.Fn P.Fn t picks position × (length (filter t.passes (state self.old).kept) ≤ (S.held sink.old).free) }
        ensures value { (t : Pick) → Picks F.Fn P.Fn t picks position → result ≡ length (filter t.passes (state self.old).kept) }
        ensures after { (t : Pick) → Picks F.Fn P.Fn t picks position → state self.new ≡ moved (state self.old).playhead t.passes (state self.old) }
        ensures told { (t : Pick) → Picks F.Fn P.Fn t picks position → S.held sink.new ≡ told_to (S.held sink.old) (map (told_by t.told_at) (filter t.passes (state self.old).kept)) }
        ensures lent { Lent self.old self.new }
    {
        let used = self.used.len;
        let kept = self.kept.len;
        tell_picked(self.kept.items(), &mut self.used, &picks, &position, sink);
        self.kept.remove(picks);
        self.head.kept_ids -= self.used.len - used;
        kept - self.kept.len
    }

    // How far a play comes with so many free places.
    pub(crate) fn reach(&self, to: Time, free: usize) -> Time
        ensures { result.ms ≡ reach (state self.now) free to.ms }
    {
        let kept = self.kept.items();
        let playhead = self.head.playhead;
        let first = kept.partition_point(|event| event.span.start <= playhead);
        let Some(event) = kept[first..].get(free) else {
            return to;
        };
        if event.span.start <= to {
            event.span.start.before()
        } else {
            to
        }
    }

    // Plays to a time: tells what starts after the playhead and up to it, as far as the sink has places for all of one start.
    pub fn play<S: Sink>(&mut self, to: u64, sink: &mut S) -> Result<Played, Refusal>
        ensures after { (answer result, state self.new, S.held sink.new) ≡ plays to (state self.old) (S.held sink.old) }
        ensures furthest { IfOk result (λ p. Furthest (state self.old) (S.held sink.old).free to p.playhead.ms) }
        ensures lent { Lent self.old self.new }
        ensures same { is_ok result ≡ false → (self.new ≡ self.old) × (sink.new ≡ sink.old) }
    {
        let target = Time::new(to).ok_or(Refusal::TargetPastLatest)?;
        let after = self.head.playhead;
        if target < after {
            return Err(Refusal::BehindPlayhead);
        }
        let playhead = self.reach(target, sink.free_places());
        let due = |event: &Kept| after < event.span.start && event.span.start <= playhead;
        let told = self.tell_kept(due, |event| event.span.start, sink);
        self.head.playhead = playhead;
        Ok(Played { told, playhead })
    }

    // Jumps to a time, forward or back: tells every kept event that is active there.
    pub fn seek<S: Sink>(&mut self, to: u64, sink: &mut S) -> Result<usize, Refusal>
        ensures after { (answer result, state self.new, S.held sink.new) ≡ seeks to (state self.old) (S.held sink.old) }
        ensures lent { Lent self.old self.new }
        ensures same { is_ok result ≡ false → (self.new ≡ self.old) × (sink.new ≡ sink.old) }
    {
        let target = Time::new(to).ok_or(Refusal::TargetPastLatest)?;
        let active = |event: &Kept| event.span.is_active(target);
        if sink.free_places() < self.kept.count_active(target) {
            return Err(Refusal::NoFreePlace);
        }
        let told = self.tell_kept(active, |_event| target, sink);
        self.head.playhead = target;
        Ok(told)
    }
}
