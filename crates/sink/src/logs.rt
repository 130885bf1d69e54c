// A byte log: the records of dispatches at the front of lent bytes.
ghost use Rattle.sink.specs.Readable.{Readable};

pub mod methods;
pub mod pages;

use pages::Page;

// The bytes with their records; each 40 unused bytes are a free place.
#[derive(Drop)]
pub struct ByteLog<'a> {
    page: Page<'a>,
    ghost readable: { Readable page.bytes.now page.count },
}
