// Which texts are base64.
ghost use Rattle.std.specs.Prelude.{◌≡◌, ◌&&◌, ◌||◌};
ghost use Rattle.std.specs.List.{list_all};
ghost use Rattle.base64_codec.specs.Texts.{accepted, full, of_four, padded};

use crate::alphabet::value;

// Whether four characters are of the alphabet.
fn is_full(four: &[u8; 4]) -> bool
    ensures { result ≡ of_four full four.now }
{
    let [a, b, c, d] = *four;
    value(a).is_some() && value(b).is_some() && value(c).is_some() && value(d).is_some()
}

// Whether four characters may end a text with padding.
fn is_padded(four: &[u8; 4]) -> bool
    ensures { result ≡ of_four padded four.now }
{
    let [a, b, c, d] = *four;
    match (value(a), value(b)) {
        (Some(_), Some(second)) if c == b'=' && d == b'=' => second % 16 == 0,
        (Some(_), Some(_)) if d == b'=' => value(c).is_some_and(|third| third % 4 == 0),
        _ => false,
    }
}

// Whether all of some fours are of the alphabet.
fn are_full(fours: &[[u8; 4]]) -> bool
    ensures { result ≡ list_all (of_four full) fours.now }
{
    fours.iter().all(is_full)
}

// Whether fours may make a text: the last may be padded, and those before it are of the alphabet.
fn make_text(before: &[[u8; 4]], last: &[u8; 4]) -> bool
    ensures { result ≡ (list_all (of_four full) before.now && (of_four full last.now || of_four padded last.now)) }
{
    are_full(before) && (is_full(last) || is_padded(last))
}

// Whether a text is base64.
pub fn is_text(text: &[u8]) -> bool
    ensures { result ≡ accepted text.now }
{
    let (fours, rest) = text.as_chunks::<4>();
    if !rest.is_empty() {
        return false;
    }
    match fours.split_last() {
        None => true,
        Some((last, before)) => make_text(before, last),
    }
}
