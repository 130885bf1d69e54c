// From text to bytes.
ghost use Rattle.std.specs.Prelude.{◌≡◌, ◌≤◌, ◌||◌, true, length};
ghost use Rattle.event.specs.Fronts.{front};
ghost use Rattle.event.specs.Numbers.{answer};
ghost use Rattle.base64_codec.specs.Alphabet.{value};
ghost use Rattle.base64_codec.specs.Calls.{decodes};
ghost use Rattle.base64_codec.specs.Laws.{Exact, Restored};
ghost use Rattle.base64_codec.specs.Texts.{accepted, decoded, full, group, joined, known, octets, of_four, padded};

use crate::alphabet::value;
use crate::fronts::put;
use crate::texts::is_text;
use event::{Defect, Refusal};

// The three bytes of four numbers of 6 bits.
fn three(numbers: [u8; 4]) -> [u8; 3]
    ensures { result ≡ octets (of_four joined numbers) }
{
    let [a, b, c, d] = numbers;
    let n = ((u32::from(a) * 64 + u32::from(b)) * 64 + u32::from(c)) * 64 + u32::from(d);
    let [_, x, y, z] = n.to_be_bytes();
    [x, y, z]
}

// The number of a character of the alphabet.
fn bits(c: u8) -> u8
    requires { known c ≡ true }
    ensures { result ≡ value c }
{
    value(c).unwrap()
}

// Writes the bytes of four characters to the front of `out`.
fn unpack_four(four: &[u8; 4], out: &mut [u8])
    requires base64 { (of_four full four.now || of_four padded four.now) ≡ true }
    requires room { length (of_four group four.now) ≤ length out.old }
    ensures { out.new ≡ front (of_four group four.now) out.old }
{
    let [a, b, c, d] = *four;
    if d != b'=' {
        put(three([bits(a), bits(b), bits(c), bits(d)]), out);
    } else if c != b'=' {
        let [x, y, _] = three([bits(a), bits(b), bits(c), 0]);
        put([x, y], out);
    } else {
        let [x, _, _] = three([bits(a), bits(b), 0, 0]);
        put([x], out);
    }
}

// Writes the bytes of a text to the front of `out`.
fn unpack(text: &[u8], out: &mut [u8])
    requires base64 { accepted text.now ≡ true }
    requires room { length (decoded text.now) ≤ length out.old }
    ensures { out.new ≡ front (decoded text.now) out.old }
{
    let (fours, _) = text.as_chunks::<4>();
    for (n, four) in fours.iter().enumerate() {
        unpack_four(four, &mut out[n * 3..]);
    }
}

// How many bytes a text stands for.
#[tactic(auto, using(crate::proofs::Sizes::sized))]
fn decoded_len(text: &[u8]) -> usize
    requires { accepted text.now ≡ true }
    ensures { result ≡ length (decoded text.now) }
{
    let padding = match text {
        [.., b'=', b'='] => 2,
        [.., b'='] => 1,
        _ => 0,
    };
    text.len() / 4 * 3 - padding
}

// Writes the bytes of a text to the front of `out`, and answers how many there are.
#[tactic(auto, using(crate::proofs::Restoring::restored, crate::proofs::Restoring::exact))]
pub fn decode(text: &[u8], out: &mut [u8]) -> Result<usize, Refusal>
    ensures decodes { (answer result, out.new) ≡ decodes text.now out.old }
    ensures restored { Restored text.now }
    ensures exact { Exact text.now }
{
    if !is_text(text) {
        return Err(Defect::NotBase64.into());
    }
    let count = decoded_len(text);
    if out.len() < count {
        return Err(Refusal::BufferShort);
    }
    unpack(text, out);
    Ok(count)
}
