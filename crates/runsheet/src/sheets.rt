// A run sheet: catalogue records at the front, and then commands.
pub mod methods;
pub mod reading;

use media::Stretch;

// The media buffer, the place of the next record in it, and how many records were counted.
#[derive(Clone, Copy)]
pub struct RunSheet<'a> {
    stretch: Stretch<'a>,
    place: u32,
    count: u64,
}
