// What a reader finds at a place: readers walk over records, one turn at each.
ghost use Rattle.std.specs.Prelude.{◌≡◌};
ghost use Rattle.media.specs.Readers.{fault};
ghost use Rattle.media.specs.declared.walks.Turn.TheVariants.{Broken};

use event::{Defect, Event, Fault, Layer};

// Nothing more, what is wrong with what stands there, or a record that gives an item or is stepped over, with the reader's state behind it and its length.
#[derive(Clone, Copy)]
pub enum Turn<X, D, S> {
    Clean,
    Broken(D),
    Gives(X, S, u32),
    Passes(S, u32),
}

impl<S> Turn<Event, Fault, S> {
    // What is wrong with a reader's record at a place.
    pub fn fault(place: u32, defect: Defect) -> Turn<Event, Fault, S>
        ensures { result ≡ Broken (fault place defect) }
    {
        Turn::Broken(Fault {
            defect,
            place,
            layer: Layer::Reader,
        })
    }
}
