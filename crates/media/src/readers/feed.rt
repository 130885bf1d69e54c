// A reader is a feed.
ghost use Rattle.std.specs.Prelude.{◌≡◌, None};
ghost use Rattle.media.specs.Insides.{AllInside};
ghost use Rattle.media.specs.Reaches.{Exactly, NoneAtFault, stand};
ghost use Rattle.media.specs.Readers.{ahead, behind, comes, coming as reads};
ghost use Rattle.media.specs.Stretches.{part};
ghost use Rattle.media.specs.Walks.{given};

use super::rules::Records;
use super::{Reader, Walk};
use crate::stretches::Stretch;
use crate::walks::Turn;
use event::{Event, Fault, Feed};

impl<R: Records<S>, S: Copy> Walk<R, S> {
    // The next event of a stretch, none at the clean end, or what is wrong; the walk then stands behind it.
    fn next(&mut self, stretch: Stretch) -> Result<Option<Event>, Fault>
        ensures { ahead result (behind R.turns stretch.entry self.new) ≡ behind R.turns stretch.entry self.old }
    {
        loop {
            match self.rules.turn(self.state, stretch, self.place) {
                Turn::Clean => return Ok(None),
                Turn::Broken(fault) => return Err(fault),
                Turn::Gives(event, state, length) => {
                    self.state = state;
                    self.place += length;
                    return Ok(Some(event));
                }
                Turn::Passes(state, length) => {
                    self.state = state;
                    self.place += length;
                }
            }
        }
    }
}

impl<'a, R: Records<S>, S: Copy> Reader<'a, R, S> {
    // A reader of the records in a stretch. Its events' messages stand in the stretch, and its ending is clean exactly if no record is at fault.
    pub fn new(rules: R, stretch: Stretch<'a>, state: S) -> Reader<'a, R, S>
        ensures coming { reads R.turns result ≡ comes (given (R.turns rules) state stretch.entry.from (part stretch.entry)) }
        ensures inside { AllInside stretch.entry.from stretch.entry.to (reads R.turns result) }
        ensures clean { Exactly ((reads R.turns result).ending ≡ None) (NoneAtFault (R.turns rules) (stand state stretch.entry.from (part stretch.entry))) }
    {
        let mut walk = Walk {
            rules,
            place: stretch.from,
            state,
        };
        let ready = walk.next(stretch);
        Reader {
            stretch,
            walk,
            ready,
        }
    }
}

impl<'a, R: Records<S>, S: Copy> Feed for Reader<'a, R, S> {
    ghost coming = { reads R.turns };

    fn look(&self) -> Result<Option<Event>, Fault> {
        self.ready
    }

    fn step(&mut self) {
        if let Ok(Some(_)) = self.ready {
            self.ready = self.walk.next(self.stretch);
        }
    }
}
