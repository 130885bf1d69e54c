// Opening a run sheet, and performing its commands.
ghost use Rattle.std.specs.Prelude.{◌≡◌, Err};
ghost use Rattle.event.specs.Numbers.{answer};
ghost use Rattle.catalogue.specs.Catalogues.{listed};
ghost use Rattle.player.specs.Players.{state};
ghost use Rattle.effects.specs.Effects.{performs};
ghost use Rattle.run.specs.Openings.{Opens, listed_by};

use super::{Opening, Script};
use effects::perform;
use event::{Refusal, Sink, StreamCount};
use player::Player;
use runsheet::{Command, RunSheet};

impl<'a> Script<'a> {
    // Does what a command asks for.
    pub(crate) fn perform<S: Sink>(
        &self,
        command: Command,
        player: &mut Player,
        sink: &mut S,
    ) -> Result<(), Refusal>
        ensures { (answer result, state player.new, S.held sink.new) ≡ performs command self.now.media.now (listed self.now.catalogue) (state player.old) (S.held sink.old) }
    {
        perform(command, self.media, &self.catalogue, player, sink)
    }
}

impl<'a> Opening<'a> {
    // Reads the catalogue at the front of a run sheet, which is the whole media buffer.
    pub fn new(media: &'a [u8]) -> Opening<'a>
        ensures { Opens media.now result }
    {
        let mut sheet = match RunSheet::new(media) {
            Err(refusal) => return Opening::refused(0, refusal),
            Ok(sheet) => sheet,
        };
        match sheet.catalogue() {
            Err(refusal) => Opening::refused(sheet.records_read(), refusal),
            Ok(catalogue) => Opening {
                script: Ok(Script {
                    media,
                    sheet,
                    catalogue,
                }),
                count: sheet.records_read(),
            },
        }
    }

    // Nothing is read behind a record that was refused.
    fn refused(count: u64, refusal: Refusal) -> Opening<'a>
        ensures { result ≡ record { script = Err refusal; count = count } }
    {
        Opening {
            script: Err(refusal),
            count,
        }
    }

    // How many streams the run sheet lists; none after a refusal.
    pub fn streams(&self) -> StreamCount
        ensures { result.count ≡ listed_by self.now.script }
    {
        self.script.map_or(StreamCount::at_most(0), |script| script.catalogue.streams())
    }
}
