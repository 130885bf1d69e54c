// A segment reader is a feed.
ghost use Rattle.std.specs.Prelude.{◌≡◌, None};
ghost use Rattle.media.specs.Insides.{AllInside};
ghost use Rattle.media.specs.Reaches.{Exactly, NoneAtFault, stand};
ghost use Rattle.media.specs.Stretches.{part};
ghost use Rattle.catalogue.specs.Catalogues.{listed};
ghost use Rattle.segment.specs.SegmentWalks.{coming as comes, segment, segment_turn};

use super::{Segment, SegmentReader};
use crate::timings::Timing;
use catalogue::Catalogue;
use event::{Event, Fault, Feed};
use media::{Reader, Stretch};

impl<'a, 'c> SegmentReader<'a, 'c> {
    // A reader of the segment in a stretch, whose times count so, with the streams of a catalogue. Its events' messages stand in the stretch, and its ending is clean exactly if no box is at fault.
    pub fn new(
        stretch: Stretch<'a>,
        timing: Timing,
        catalogue: &'c Catalogue<'a>,
    ) -> SegmentReader<'a, 'c>
        ensures coming { comes result ≡ segment (listed catalogue.now) timing stretch.entry.from (part stretch.entry) }
        ensures inside { AllInside stretch.entry.from stretch.entry.to (comes result) }
        ensures clean { Exactly ((comes result).ending ≡ None) (NoneAtFault (segment_turn (listed catalogue.now) timing) (stand tt stretch.entry.from (part stretch.entry))) }
    {
        SegmentReader {
            reader: Reader::new(Segment { timing, catalogue }, stretch, ()),
        }
    }
}

impl<'a, 'c> Feed for SegmentReader<'a, 'c> {
    ghost coming = { comes };

    fn look(&self) -> Result<Option<Event>, Fault> {
        self.reader.look()
    }

    fn step(&mut self) {
        self.reader.step();
    }
}
