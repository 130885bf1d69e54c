// Reading a whole catalogue.
ghost use Rattle.std.specs.Prelude.{◌≡◌, IfOk};
ghost use Rattle.media.specs.Stretches.{part};
ghost use Rattle.catalogue.specs.CatalogueWalks.{catalogue, read};
ghost use Rattle.catalogue.specs.Catalogues.{Sound, listed};

use super::Catalogue;
use event::Refusal;
use media::Stretch;

impl<'a> Catalogue<'a> {
    // The catalogue of all the `SV` records of a stretch, in turn.
    pub fn read(stretch: Stretch<'a>) -> Result<Catalogue<'a>, Refusal>
        ensures lists { read result ≡ catalogue stretch.entry.from (part stretch.entry) }
        ensures sound { IfOk result (λ c. Sound (listed c)) }
        ensures over { IfOk result (λ c. c.stretch ≡ stretch.entry) }
    {
        let mut all = Catalogue::new(stretch);
        let mut place = stretch.from;
        while !stretch.left(place).is_empty() {
            place = all.add(place)?;
        }
        Ok(all)
    }
}
