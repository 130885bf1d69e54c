// From bytes to text.
ghost use Rattle.std.specs.Prelude.{◌≡◌, ◌<◌, ◌≤◌, length};
ghost use Rattle.event.specs.Fronts.{front};
ghost use Rattle.event.specs.Numbers.{answer};
ghost use Rattle.base64_codec.specs.Calls.{encodes};
ghost use Rattle.base64_codec.specs.Laws.{Undone};
ghost use Rattle.base64_codec.specs.Texts.{digits, encoded, of_three, packed};

use crate::alphabet::digit;
use crate::fronts::put;
use event::Refusal;

// The four characters of three bytes.
fn four(three: [u8; 3]) -> [u8; 4]
    ensures { result ≡ digits (of_three packed three) }
{
    let [a, b, c] = three;
    let n = u32::from_be_bytes([0, a, b, c]);
    [digit(n >> 18), digit(n >> 12), digit(n >> 6), digit(n)]
}

// Writes the text of fewer than three bytes to the front of `out`.
#[tactic(auto, unfolding(crate::specs::Texts::encoded))]
fn pack_last(rest: &[u8], out: &mut [u8])
    requires rest_len_bound { length rest.now < 3 }
    requires rest_in_bounds { length (encoded rest.now) ≤ length out.old }
    ensures { out.new ≡ front (encoded rest.now) out.old }
{
    match rest {
        [a] => {
            let [w, x, _, _] = four([*a, 0, 0]);
            put([w, x, b'=', b'='], out);
        }
        [a, b] => {
            let [w, x, y, _] = four([*a, *b, 0]);
            put([w, x, y, b'='], out);
        }
        _ => {}
    }
}

// Writes the text of some bytes to the front of `out`.
fn pack(bytes: &[u8], out: &mut [u8])
    requires { length (encoded bytes.now) ≤ length out.old }
    ensures { out.new ≡ front (encoded bytes.now) out.old }
{
    let (threes, rest) = bytes.as_chunks::<3>();
    for (n, three) in threes.iter().enumerate() {
        put(four(*three), &mut out[n * 4..]);
    }
    pack_last(rest, &mut out[threes.len() * 4..]);
}

// Writes the text of some bytes to the front of `out`, and answers its length.
#[tactic(auto, using(crate::proofs::Sizes::encoded_sized))]
pub fn encode(bytes: &[u8], out: &mut [u8]) -> Result<usize, Refusal>
    ensures encodes { (answer result, out.new) ≡ encodes bytes.now out.old }
    ensures undone { Undone bytes.now }
{
    let groups = bytes.len().div_ceil(3);
    if out.len() / 4 < groups {
        return Err(Refusal::BufferShort);
    }
    pack(bytes, out);
    Ok(groups * 4)
}
