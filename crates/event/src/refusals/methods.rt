// The numbers of refusals.
ghost use Rattle.std.specs.Prelude.{◌≡◌};
ghost use Rattle.event.specs.Numbers.{number, refusal};

use super::Refusal;

impl Refusal {
    // Its number, 1 to 30.
    pub fn number(self) -> u8
        ensures { result ≡ number (refusal {X = Unit {0}} self) }
    {
        match self {
            Refusal::CatalogueRecord => 1,
            Refusal::CatalogueString => 2,
            Refusal::ListedTwice => 3,
            Refusal::CatalogueFull => 4,
            Refusal::OutsideMedia => 5,
            Refusal::Unreadable(defect) => defect.number(),
            Refusal::TableSize => 15,
            Refusal::UnknownStream => 16,
            Refusal::NotAFollowMode => 17,
            Refusal::AlreadyFollowed => 18,
            Refusal::NotFollowed => 19,
            Refusal::TargetPastLatest => 20,
            Refusal::BehindPlayhead => 21,
            Refusal::NoEventPlace => 22,
            Refusal::NoIdPlace => 23,
            Refusal::NoFreePlace => 24,
            Refusal::RangeBackward => 25,
            Refusal::AtFault(_) => 26,
            Refusal::SinkFull => 27,
            Refusal::OutsideBuffer => 28,
            Refusal::BufferShort => 29,
            Refusal::RunSheetRecord => 30,
        }
    }
}
