// A pair of scheme and value, which names a stream.
ghost use Rattle.std.specs.Prelude.{◌≡◌};
ghost use Rattle.std.specs.Option.{option_map};
ghost use Rattle.catalogue.specs.Pairs.{blank, fronted, listing, proper, stream};

// The two strings, as they stand in the media buffer.
#[derive(Clone, Copy, PartialEq, Eq)]
pub struct Pair<'a> {
    pub scheme: &'a [u8],
    pub value: &'a [u8],
}

impl<'a> Pair<'a> {
    // The strings of these lengths that stand at the front of the bytes, unless they are cut.
    pub fn front(bytes: &'a [u8], scheme: u8, value: u8) -> Option<Pair<'a>>
        ensures { option_map stream result ≡ fronted scheme value bytes.now }
    {
        let middle = usize::from(scheme);
        let end = middle + usize::from(value);
        if bytes.len() < end {
            return None;
        }
        Some(Pair {
            scheme: &bytes[0..middle],
            value: &bytes[middle..end],
        })
    }

    // The pair that an `SV` record at the front of the bytes lists, unless the mark is another or the record is cut.
    pub(crate) fn listed(bytes: &'a [u8]) -> Option<Pair<'a>>
        ensures { option_map stream result ≡ listing bytes.now }
    {
        match bytes {
            [b'S', b'V', scheme, value, rest @ ..] => Pair::front(rest, *scheme, *value),
            _ => None,
        }
    }

    // The scheme is not empty, and neither string holds a 0 byte.
    pub(crate) fn is_proper(self) -> bool
        ensures { result ≡ proper (stream self.entry) }
    {
        !self.scheme.is_empty() && !holds_zero(self.scheme) && !holds_zero(self.value)
    }
}

// A 0 byte is among the bytes.
fn holds_zero(bytes: &[u8]) -> bool
    ensures { result ≡ blank bytes.now }
{
    bytes.contains(&0)
}
