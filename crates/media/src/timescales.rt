// Timescales, and fractions of them in milliseconds.
ghost use Rattle.std.specs.Prelude.{◌≤◌};

pub mod methods;

// How many ticks a second has: 1 to 10,000,000.
#[derive(Clone, Copy)]
pub struct Timescale {
    ticks: u32,
    ghost proper: { (1 ≤ ticks) × (ticks ≤ 10000000) },
}
