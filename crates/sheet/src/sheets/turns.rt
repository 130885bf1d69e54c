// The turns of a walk over a sheet, one at each record.
ghost use Rattle.std.specs.Prelude.{◌≡◌};
ghost use Rattle.catalogue.specs.Catalogues.{listed};
ghost use Rattle.sheet.specs.Lengths.{goes_forward};
ghost use Rattle.sheet.specs.Messages.{stands_within};
ghost use Rattle.sheet.specs.SheetRecords.{es, ev};
ghost use Rattle.sheet.specs.SheetWalks.{es_turn, ev_turn, turns};

use super::records::{EsRecord, EvRecord};
use super::{EventStream, Sheet};
use event::{Defect, Event, Fault};
use media::{Records, Stretch, Turn};

impl<'a, 'c> Sheet<'a, 'c> {
    // The turn over an `ES` record at a place.
    fn open(&self, opening: EsRecord, place: u32) -> Turn<Event, Fault, Option<EventStream>>
        ensures { result ≡ es_turn (listed self.now.catalogue.now) place (es opening.entry) }
    {
        match opening.open(self.catalogue) {
            Some(stream) => Turn::Passes(Some(stream), opening.length),
            None => Turn::fault(place, Defect::Timescale),
        }
    }
}

impl EvRecord<'_> {
    // The turn over the record at a place, with its message at another, under the event stream that governs there.
    fn turn(
        self,
        stream: Option<EventStream>,
        place: u32,
        message: u32,
    ) -> Turn<Event, Fault, Option<EventStream>>
        ensures { result ≡ ev_turn stream place message (ev self.entry) }
    {
        let Some(stream) = stream else {
            return Turn::fault(place, Defect::NoEventStream);
        };
        match self.event(stream, message) {
            Ok(event) => Turn::Gives(event, Some(stream), 21 + u32::from(self.size)),
            Err(defect) => Turn::fault(place, defect),
        }
    }
}

impl<'a, 'c> Records<Option<EventStream>> for Sheet<'a, 'c> {
    ghost turns = { turns };

    fn turn(
        &self,
        stream: Option<EventStream>,
        stretch: Stretch,
        place: u32,
    ) -> Turn<Event, Fault, Option<EventStream>> {
        let bytes = stretch.left(place);
        if bytes.is_empty() {
            return Turn::Clean;
        }
        if let Some(opening) = EsRecord::read(bytes) {
            return self.open(opening, place);
        }
        match EvRecord::read(bytes) {
            Some(given) => given.turn(stream, place, place + 21),
            None => Turn::fault(place, Defect::CutRecord),
        }
    }

    ghost forward = { goes_forward };

    ghost within = { stands_within };
}
