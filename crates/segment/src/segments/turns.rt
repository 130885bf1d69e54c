// The turns of a walk over a segment, one at each box.
ghost use Rattle.std.specs.Prelude.{◌≡◌, ◌≤◌, length};
ghost use Rattle.catalogue.specs.Catalogues.{listed};
ghost use Rattle.segment.specs.Emsgs.{emsg_of};
ghost use Rattle.segment.specs.Lengths.{goes_forward};
ghost use Rattle.segment.specs.Messages.{stands_within};
ghost use Rattle.segment.specs.SegmentWalks.{emsg_event, turns};

use super::Segment;
use super::boxes::{Size, judge, kind, version};
use super::emsgs::EmsgFields;
use crate::timings::Version;
use event::{Defect, Event, Fault, Message};
use media::{Records, Stretch, Turn};

impl<'a, 'c> Segment<'a, 'c> {
    // The event of an emsg box of a version, whose fields are in these bytes, which end at a place.
    fn event(&self, version: Version, bytes: &[u8], end: u32) -> Result<Event, Defect>
        requires { length bytes.now ≤ end }
        ensures { result ≡ emsg_event (listed self.now.catalogue.now) self.now.timing end (emsg_of version bytes.now) }
    {
        let fields = EmsgFields::read(version, bytes).ok_or(Defect::BoxFields)?;
        let length = fields.message.len() as u32;
        let message = Message {
            place: end - length,
            length,
            base64: false,
        };
        fields.event(self.timing, self.catalogue, message)
    }
}

impl<'a, 'c> Records<()> for Segment<'a, 'c> {
    ghost turns = { turns };

    fn turn(&self, _state: (), stretch: Stretch, place: u32) -> Turn<Event, Fault, ()> {
        let bytes = stretch.left(place);
        if bytes.is_empty() {
            return Turn::Clean;
        }
        let size = Size::of(bytes);
        let body = size.body(bytes);
        let span = size.span(bytes.len());
        match judge(size, bytes.len(), kind(bytes), version(body)) {
            Err(defect) => Turn::fault(place, defect),
            Ok(None) => Turn::Passes((), span as u32),
            Ok(Some(version)) => match self.event(version, &body[4..], place + span as u32) {
                Ok(event) => Turn::Gives(event, (), span as u32),
                Err(defect) => Turn::fault(place, defect),
            },
        }
    }

    ghost forward = { goes_forward };

    ghost within = { stands_within };
}
