// Why a call refuses.
use crate::faults::{Defect, Fault};

pub mod conversions;
pub mod methods;

// The reason; `number` gives the number under which it is listed.
#[derive(Clone, Copy, PartialEq, Eq, Debug)]
pub enum Refusal {
    // the catalogue: an unknown mark or a cut record
    CatalogueRecord,
    // the catalogue: an empty scheme, or a 0 byte in a string
    CatalogueString,
    // the catalogue: a pair that is listed twice
    ListedTwice,
    // the catalogue: a 33rd stream
    CatalogueFull,
    // a media buffer that is too long, or a stretch outside it
    OutsideMedia,
    // bytes or times that cannot be read, where no feed carries the fault
    Unreadable(Defect),
    // a table with no place or with too many
    TableSize,
    // a stream that is not in the catalogue
    UnknownStream,
    // a mode that is neither on receive nor on start
    NotAFollowMode,
    // a stream that is followed already
    AlreadyFollowed,
    // a stream that is not followed
    NotFollowed,
    // a play or a seek past the latest time
    TargetPastLatest,
    // a play to a time behind the playhead
    BehindPlayhead,
    // no place left for an event to keep
    NoEventPlace,
    // no place left for an id
    NoIdPlace,
    // more to dispatch than the sink has free places
    NoFreePlace,
    // a range that ends before it begins
    RangeBackward,
    // a draw from a feed that is at a fault
    AtFault(Fault),
    // a tell to a sink with no free place
    SinkFull,
    // a message outside its buffer
    OutsideBuffer,
    // a buffer or a list that is too short for what goes into it
    BufferShort,
    // a run sheet's unknown mark, cut record, or catalogue record after another mark
    RunSheetRecord,
}
