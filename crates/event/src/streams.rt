// How many streams a catalogue lists.
ghost use Rattle.std.specs.Prelude.{◌≤◌};

pub mod methods;

// A number of streams, at most 32; they are numbered from 0.
#[derive(Clone, Copy, PartialEq, Eq, Debug)]
pub struct StreamCount {
    count: u8,
    ghost few: { count ≤ 32 },
}
