// The catalogue: the streams that are listed, each a pair of scheme and value.
ghost use Rattle.std.specs.Prelude.{◌≡◌, ◌≤◌, false, [], length, take, is_ok};
ghost use Rattle.std.specs.Option.{option_map};
ghost use Rattle.std.specs.Result.{result_err};
ghost use Rattle.event.specs.Numbers.{answer};
ghost use Rattle.media.specs.Stretches.{left};
ghost use Rattle.catalogue.specs.Catalogues.{added, behind, ends, flaw, listed, named, number};
ghost use Rattle.catalogue.specs.Pairs.{listing, stream};

use crate::pairs::Pair;
use event::{Refusal, StreamCount};
use media::{Stretch, cut};

pub mod reading;

// Where a listed pair stands: the places where its scheme and its value begin, and where the value ends.
#[derive(Clone, Copy)]
struct Entry {
    scheme: u32,
    value: u32,
    end: u32,
}

impl Entry {
    // Where the pair of the `SV` record at a place of a stretch stands, unless the mark is another or the record is cut.
    fn read(stretch: Stretch, place: u32) -> Option<Entry>
        ensures { option_map (ends stretch.entry.media.now) result ≡ option_map (behind place) (listing (left stretch.entry place)) }
    {
        let pair = Pair::listed(stretch.left(place))?;
        let scheme = place + 4;
        let value = scheme + pair.scheme.len() as u32;
        let end = value + pair.value.len() as u32;
        Some(Entry { scheme, value, end })
    }

    // The pair in the media buffer.
    fn pair<'a>(self, media: &'a [u8]) -> Pair<'a>
        ensures { stream result ≡ named media.now self }
    {
        Pair {
            scheme: cut(media, self.scheme, self.value),
            value: cut(media, self.value, self.end),
        }
    }
}

// The stretch that the pairs stand in, and the places of the pairs.
#[derive(Clone, Copy)]
pub struct Catalogue<'a> {
    stretch: Stretch<'a>,
    entries: [Entry; 32],
    count: StreamCount,
}

impl<'a> Catalogue<'a> {
    // No stream of the stretch is listed yet.
    pub fn new(stretch: Stretch<'a>) -> Catalogue<'a>
        ensures listed { listed result ≡ [] }
        ensures over { result.stretch ≡ stretch.entry }
    {
        let none = Entry {
            scheme: 0,
            value: 0,
            end: 0,
        };
        Catalogue {
            stretch,
            entries: [none; 32],
            count: StreamCount::at_most(0),
        }
    }

    // How many streams are listed.
    pub fn streams(&self) -> StreamCount
        ensures { result.count ≡ length (listed self.now) }
    {
        self.count
    }

    // The entries that are in use.
    fn entries(&self) -> &[Entry]
        ensures value { result.now ≡ take self.now.count.count self.now.entries }
        ensures bound { length result.now ≤ 32 }
    {
        &self.entries[..usize::from(self.count.count())]
    }

    // The number of a pair in the list, if it is there.
    pub fn find(&self, pair: Pair) -> Option<u8>
        ensures { result ≡ number (stream pair.entry) (listed self.now) }
    {
        let media = self.stretch.media;
        let entries = self.entries();
        for (number, entry) in entries.iter().enumerate() {
            if entry.pair(media) == pair {
                return Some(number as u8);
            }
        }
        None
    }

    // Why a pair cannot be listed, if so: a bad string, it is listed already, or it would be the 33rd.
    fn admit(&self, entry: Entry) -> Result<(), Refusal>
        ensures { result_err result ≡ flaw (named self.now.stretch.media.now entry) (listed self.now) }
    {
        let pair = entry.pair(self.stretch.media);
        if !pair.is_proper() {
            return Err(Refusal::CatalogueString);
        }
        if self.find(pair).is_some() {
            return Err(Refusal::ListedTwice);
        }
        if self.streams().count() >= StreamCount::MOST {
            return Err(Refusal::CatalogueFull);
        }
        Ok(())
    }

    // Lists the pair of the `SV` record that stands at a place, and answers the place behind the record.
    pub fn add(&mut self, place: u32) -> Result<u32, Refusal>
        ensures lists { (answer result, listed self.new) ≡ added place (listing (left self.old.stretch place)) (listed self.old) }
        ensures same { is_ok result ≡ false → self.new ≡ self.old }
        ensures over { self.new.stretch ≡ self.old.stretch }
    {
        let entry = Entry::read(self.stretch, place).ok_or(Refusal::CatalogueRecord)?;
        self.admit(entry)?;
        self.entries[usize::from(self.count.count())] = entry;
        self.count = StreamCount::at_most(self.count.count() + 1);
        Ok(entry.end)
    }
}
