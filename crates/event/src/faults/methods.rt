// The numbers of defects.
ghost use Rattle.std.specs.Prelude.{◌≡◌};
ghost use Rattle.event.specs.Numbers.{defect_number};

use super::Defect;

impl Defect {
    // Its number, 6 to 14.
    pub fn number(self) -> u8
        ensures { result ≡ defect_number self }
    {
        match self {
            Defect::Timescale => 6,
            Defect::BoxSize => 7,
            Defect::BoxFields => 8,
            Defect::BelowZero => 9,
            Defect::PastLatest => 10,
            Defect::CutRecord => 11,
            Defect::NoEventStream => 12,
            Defect::Flags => 13,
            Defect::NotBase64 => 14,
        }
    }
}
