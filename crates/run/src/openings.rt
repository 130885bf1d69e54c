// What is read of a run sheet before its commands.
use catalogue::Catalogue;
use event::Refusal;
use runsheet::RunSheet;

pub mod methods;

// The media buffer, the run sheet in it behind the catalogue, and the catalogue.
#[derive(Clone, Copy)]
pub(crate) struct Script<'a> {
    pub(crate) media: &'a [u8],
    pub(crate) sheet: RunSheet<'a>,
    pub(crate) catalogue: Catalogue<'a>,
}

// What there is to read, or the refusal of a record in front of it; and how many records were counted.
#[derive(Clone, Copy)]
pub struct Opening<'a> {
    pub(crate) script: Result<Script<'a>, Refusal>,
    pub(crate) count: u64,
}
