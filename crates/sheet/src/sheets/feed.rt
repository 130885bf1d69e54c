// A sheet reader is a feed.
ghost use Rattle.std.specs.Prelude.{◌≡◌, None};
ghost use Rattle.media.specs.Insides.{AllInside};
ghost use Rattle.media.specs.Reaches.{Exactly, NoneAtFault, stand};
ghost use Rattle.media.specs.Stretches.{part};
ghost use Rattle.catalogue.specs.Catalogues.{listed};
ghost use Rattle.sheet.specs.SheetWalks.{coming as comes, sheet, sheet_turn};

use super::{Sheet, SheetReader};
use catalogue::Catalogue;
use event::{Event, Fault, Feed};
use media::{Reader, Stretch};

impl<'a, 'c> SheetReader<'a, 'c> {
    // A reader of the sheet in a stretch, with the streams of a catalogue. Its events' messages stand in the stretch, and its ending is clean exactly if no record is at fault.
    pub fn new(stretch: Stretch<'a>, catalogue: &'c Catalogue<'a>) -> SheetReader<'a, 'c>
        ensures coming { comes result ≡ sheet (listed catalogue.now) stretch.entry.from (part stretch.entry) }
        ensures inside { AllInside stretch.entry.from stretch.entry.to (comes result) }
        ensures clean { Exactly ((comes result).ending ≡ None) (NoneAtFault (sheet_turn (listed catalogue.now)) (stand None stretch.entry.from (part stretch.entry))) }
    {
        SheetReader {
            reader: Reader::new(Sheet { catalogue }, stretch, None),
        }
    }
}

impl<'a, 'c> Feed for SheetReader<'a, 'c> {
    ghost coming = { comes };

    fn look(&self) -> Result<Option<Event>, Fault> {
        self.reader.look()
    }

    fn step(&mut self) {
        self.reader.step();
    }
}
