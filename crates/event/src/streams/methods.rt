// Making a number of streams and reading it.
ghost use Rattle.std.specs.Prelude.{◌≡◌, min};

use super::StreamCount;

impl StreamCount {
    // The most streams that a catalogue lists.
    pub const MOST: u8 = 32;

    // The first n streams, or 32 where n is more.
    pub fn at_most(n: u8) -> StreamCount
        ensures { result.count ≡ min n 32 }
    {
        StreamCount {
            count: n.min(Self::MOST),
        }
    }

    // How many they are.
    pub fn count(self) -> u8
        ensures { result ≡ self.count }
    {
        self.count
    }
}
