// What a run sheet shows of itself.
ghost use Rattle.std.specs.Prelude.{◌≡◌};

use super::RunSheet;

impl RunSheet<'_> {
    // How many records were read, the one that was refused among them.
    pub fn records_read(&self) -> u64
        ensures { result ≡ self.now.count }
    {
        self.count
    }
}
