// What the two decoders and the encoder answer.
use crate::bits::by_bits;
use base64_codec::{decode, encode, is_text};
use event::{Defect, Refusal};
use std::process::Abort;
use std::test::Fail;

// The text of `bytes` is `text`, and both decoders give `bytes` back.
fn vector(rt: &impl Abort, bytes: &[u8], text: &[u8]) -> Result<(), Fail> {
    let mut out = [7u8; 16];
    let n = encode(bytes, &mut out)?;
    assert!(rt; n == text.len() && n <= 16);
    assert!(rt; &out[0..n] == text);
    let mut back = [7u8; 16];
    let m = decode(text, &mut back)?;
    assert!(rt; m == bytes.len() && m <= 16);
    assert!(rt; &back[0..m] == bytes);
    both(rt, text)
}

// The second decoder accepts what the first does, and gives the same bytes.
fn both(rt: &impl Abort, text: &[u8]) -> Result<(), Fail> {
    let mut one = [0u8; 64];
    let mut two = [0u8; 64];
    let first = decode(text, &mut one);
    let second = by_bits(text, &mut two);
    assert!(rt; is_text(text) == second.is_some());
    match (first, second) {
        (Ok(n), Some(m)) => {
            assert!(rt; n == m);
            assert!(rt; one == two);
            Ok(())
        }
        (Err(Refusal::Unreadable(Defect::NotBase64)), None) => {
            assert!(rt; one == [0; 64]);
            Ok(())
        },
        _ => Err(Fail::new("the decoders differ")),
    }
}

#[test]
fn vectors(rt: HostRuntime) -> Result<(), Fail> {
    vector(&rt, b"", b"")?;
    vector(&rt, b"f", b"Zg==")?;
    vector(&rt, b"fo", b"Zm8=")?;
    vector(&rt, b"foo", b"Zm9v")?;
    vector(&rt, b"foob", b"Zm9vYg==")?;
    vector(&rt, b"fooba", b"Zm9vYmE=")?;
    vector(&rt, b"foobar", b"Zm9vYmFy")
}

// A text that is refused: a character that is not of the alphabet, padding in the wrong place, unused bits that are not 0.
#[test]
fn damaged(rt: HostRuntime) -> Result<(), Fail> {
    for text in [b"Zm9v=", b"Zm9vY", b"Zm8==", b"Zm9-="] {
        assert!(rt; !is_text(text));
        both(&rt, text)?;
    }
    for text in [
        b"Zh==", b"Zm9=", b"Z===", b"====", b"Zg=A", b"Zm 9", b"Zm9_", b"=Zm9",
    ] {
        assert!(rt; !is_text(text));
        both(&rt, text)?;
    }
    both(&rt, b"Zg==Zm9v")
}

// A buffer that is too short is left as it was, and a text that is not base64 is refused before it.
#[test]
fn short(rt: HostRuntime) {
    let mut out = [7u8; 3];
    assert!(rt; encode(b"f", &mut out) == Err(Refusal::BufferShort));
    assert!(rt; decode(b"Zm9vYg==", &mut out) == Err(Refusal::BufferShort));
    assert!(rt; decode(b"Zm9vYh==", &mut out) == Err(Refusal::Unreadable(Defect::NotBase64)));
    assert!(rt; out == [7; 3]);
}

// The next number of a linear congruential generator.
fn next(seed: u32) -> u32 {
    seed.wrapping_mul(1664525).wrapping_add(1013904223)
}

// A character of the alphabet, or now and then another.
fn character(seed: u32) -> u8 {
    b"ABCDEFGHIJKLMNOPQRSTUVWXYZabcdefghijklmnopqrstuvwxyz0123456789+/==-_"[(seed >> 16) as usize
        % 68]
}

// Encodes bytes made from `seed`, reads the text back, and reads it again with one character changed and with its end cut off.
fn round(rt: &impl Abort, mut seed: u32) -> Result<u32, Fail> {
    let mut bytes = [0u8; 48];
    for b in bytes.iter_mut() {
        seed = next(seed);
        *b = (seed >> 24) as u8;
    }
    seed = next(seed);
    let given = &bytes[0..(seed >> 16) as usize % 49];
    let mut text = [b'A'; 64];
    let n = encode(given, &mut text)?;
    assert!(rt; n <= 64);
    both(rt, &text[0..n])?;
    let mut back = [0u8; 48];
    let m = decode(&text[0..n], &mut back)?;
    assert!(rt; m <= 48);
    assert!(rt; &back[0..m] == given);
    seed = next(seed);
    text[(seed >> 20) as usize % 64] = character(seed);
    both(rt, &text[0..n])?;
    seed = next(seed);
    both(rt, &text[0..(seed >> 20) as usize % 65])?;
    Ok(seed)
}

// Reads a text of characters made from `seed`.
fn noise(rt: &impl Abort, mut seed: u32) -> Result<u32, Fail> {
    let mut text = [0u8; 8];
    for c in text.iter_mut() {
        seed = next(seed);
        *c = character(seed);
    }
    both(rt, &text)?;
    Ok(seed)
}

#[test]
fn generated(rt: HostRuntime) -> Result<(), Fail> {
    let mut seed = 1;
    for _ in 0..2000 {
        seed = round(&rt, seed)?;
    }
    for _ in 0..4000 {
        seed = noise(&rt, seed)?;
    }
    Ok(())
}
