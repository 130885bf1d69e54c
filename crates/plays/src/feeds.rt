// A feed of at most one record.
ghost use Rattle.std.specs.Prelude.{[], ◌∷◌, Some, None};

use event::{Event, Fault, Feed};

// The record, if it is still to come, and the fault behind it, if there is one.
#[derive(Drop)]
pub(crate) struct One {
    pub(crate) event: Option<Event>,
    pub(crate) fault: Option<Fault>,
}

impl Feed for One {
    ghost coming = { λ f. record { records = elim f.event [ None ↦ [] | Some e ↦ e ∷ [] ]; ending = f.fault } };

    fn look(&self) -> Result<Option<Event>, Fault> {
        match (self.event, self.fault) {
            (None, Some(fault)) => Err(fault),
            (event, _) => Ok(event),
        }
    }

    fn step(&mut self) {
        self.event = None;
    }
}
