// What it means to be a sink.
ghost use Rattle.std.specs.Prelude.{◌≡◌};
ghost use Rattle.event.specs.Numbers.{answer};
ghost use Rattle.event.specs.Sinks.{Held, tells};

use crate::dispatches::Dispatch;
use crate::refusals::Refusal;

// A sink means the list of dispatches it was told and its free places.
pub trait Sink {
    ghost held: { Self → Held };

    // How many more dispatches it takes; nothing changes.
    fn free_places(&self) -> usize
        ensures { result ≡ (held self.now).free };

    // Puts one dispatch at the list's end and takes one free place; with none it refuses and nothing changes.
    fn tell(&mut self, dispatch: Dispatch) -> Result<(), Refusal>
        ensures tells { (answer result, held self.new) ≡ tells dispatch (held self.old) }
        ensures same { (held self.old).free ≡ 0 → self.new ≡ self.old };
}
