// What a refusal is made of: a defect, or a feed's fault.
ghost use Rattle.std.specs.Prelude.{◌≡◌};
ghost use Rattle.event.specs.declared.refusals.Refusal.TheVariants.{AtFault, Unreadable};

use super::Refusal;
use crate::faults::{Defect, Fault};

impl From<Defect> for Refusal {
    ghost from_gives = { λ d e. e ≡ Unreadable d };

    // The refusal of a call that no feed carries the defect for.
    fn from(defect: Defect) -> Refusal {
        Refusal::Unreadable(defect)
    }
}

impl From<Fault> for Refusal {
    ghost from_gives = { λ f e. e ≡ AtFault f };

    // The refusal of a draw from a feed that is at the fault.
    fn from(fault: Fault) -> Refusal {
        Refusal::AtFault(fault)
    }
}
