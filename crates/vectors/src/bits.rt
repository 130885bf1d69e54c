// A decoder that reads a text bit by bit.
use std::mem;

// The number that a character stands for.
fn six(c: u8) -> Option<u8> {
    match c {
        b'A'..=b'Z' => Some(c - b'A'),
        b'a'..=b'z' => Some(c - b'a' + 26),
        b'0'..=b'9' => Some(c - b'0' + 52),
        b'+' => Some(62),
        b'/' => Some(63),
        _ => None,
    }
}

// The text without its padding, and how many bits of its last character are unused.
fn stripped(text: &[u8]) -> (&[u8], usize) {
    match text {
        [body @ .., b'=', b'='] => (body, 4),
        [body @ .., b'='] => (body, 2),
        _ => (text, 0),
    }
}

// Bits that are read and not yet a whole byte, and the bytes before them.
#[derive(Clone, Copy, Default)]
struct Taken {
    byte: u8,
    bits: usize,
    bytes: usize,
}

impl Taken {
    // Takes the six bits of a character, the highest first, and writes each byte that is whole.
    fn take(&mut self, value: u8, out: &mut [u8]) {
        for mask in [32u8, 16, 8, 4, 2, 1] {
            self.byte = self.byte << 1 | u8::from(value & mask != 0);
            self.bits = self.bits.wrapping_add(1) % 8;
            if self.bits == 0 && self.bytes < out.len() {
                out[self.bytes] = mem::take(&mut self.byte);
                self.bytes += 1;
            }
        }
    }
}

// Writes the bytes of a text to the front of `out`, and answers how many there are; nothing where the text is not base64.
pub(crate) fn by_bits(text: &[u8], out: &mut [u8]) -> Option<usize> {
    if text.len() % 4 != 0 {
        return None;
    }
    let (body, unused) = stripped(text);
    let mut taken = Taken::default();
    for c in body {
        taken.take(six(*c)?, out);
    }
    (taken.byte == 0 && taken.bits == unused).then_some(taken.bytes)
}
