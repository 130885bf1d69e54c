// Reading a run sheet record by record.
ghost use Rattle.std.specs.Prelude.{◌≡◌, ◌+◌, ◌≤◌};
ghost use Rattle.std.specs.Iterator.{MakesProgress, endless};
ghost use Rattle.media.specs.Stretches.{left};
ghost use Rattle.catalogue.specs.CatalogueWalks.{all_listed, read};
ghost use Rattle.runsheet.specs.Commands.{command, marked};
ghost use Rattle.runsheet.specs.Openings.{lengths, more, opening_of, records_in};
ghost use Rattle.runsheet.specs.RunSheets.{commands_in, counted, counted_with, length_of, next_of, Onward, Reads, WholeMedia};

use super::RunSheet;
use crate::commands::Command;
use catalogue::Catalogue;
use event::Refusal;
use media::Stretch;

// Whether the bytes begin with the mark of a catalogue record.
fn is_listing(bytes: &[u8]) -> bool
    ensures { result ≡ marked 83 86 bytes.now }
{
    matches!(bytes, [b'S', b'V', ..])
}

impl<'a> RunSheet<'a> {
    // The run sheet at its first record, unless the media buffer is too long.
    pub fn new(media: &'a [u8]) -> Result<RunSheet<'a>, Refusal>
        ensures { WholeMedia media.now result }
    {
        let stretch = Stretch::new(media, 0, media.len())?;
        Ok(RunSheet {
            stretch,
            place: 0,
            count: 0,
        })
    }

    // Lists the streams of the catalogue records that stand next, up to the first that is refused.
    pub fn catalogue(&mut self) -> Result<Catalogue<'a>, Refusal>
        ensures lists { read result ≡ all_listed (opening_of self.old) }
        ensures place { self.new.place ≡ self.old.place + lengths (opening_of self.old).items }
        ensures count { self.new.count ≡ more self.old.count (records_in (opening_of self.old)) }
        ensures over { self.new.stretch ≡ self.old.stretch }
        ensures onward { self.old.place ≤ self.new.place }
    {
        let mut catalogue = Catalogue::new(self.stretch);
        while is_listing(self.stretch.left(self.place)) {
            self.count = self.count.saturating_add(1);
            self.place = catalogue.add(self.place)?;
        }
        Ok(catalogue)
    }
}

impl Iterator for RunSheet<'_> {
    type Item = Result<Command, Refusal>;

    ghost next_gives = { λ s r t. Reads (commands_in s) (commands_in t) r };

    // The next command, or the refusal of a record with an unknown mark or that is cut; none at the end.
    fn next(&mut self) -> Option<Result<Command, Refusal>>
        ensures value { result ≡ next_of self.old.place (left self.old.stretch self.old.place) }
        ensures reads { Reads (commands_in self.old) (commands_in self.new) result }
        ensures goes { MakesProgress (λ _. Unit {0}) (λ _. endless) self.old result self.new }
        ensures place { self.new.place ≡ self.old.place + length_of (command self.old.place (left self.old.stretch self.old.place)) }
        ensures count { self.new.count ≡ counted (left self.old.stretch self.old.place) self.old.count }
        ensures adds { self.new.count ≡ counted_with result self.old.count }
        ensures over { self.new.stretch ≡ self.old.stretch }
        ensures onward { Onward result self.old.place self.new.place self.old.stretch.to }
    {
        let bytes = self.stretch.left(self.place);
        if bytes.is_empty() {
            return None;
        }
        self.count = self.count.saturating_add(1);
        match Command::read(self.place, bytes) {
            None => Some(Err(Refusal::RunSheetRecord)),
            Some((command, length)) => {
                self.place += length;
                Some(Ok(command))
            }
        }
    }
}
