// The characters and the numbers that they stand for.
ghost use Rattle.std.specs.Prelude.{◌≡◌, ◌%◌, if◌then◌else◌, Some, None};
ghost use Rattle.base64_codec.specs.Alphabet.{digit, value};
ghost use Rattle.base64_codec.specs.Texts.{known};

// What each character stands for, sixteen to a row: 64, an @, where it is not of the alphabet.
const VALUES: &[u8; 256] = b"\
    @@@@@@@@@@@@@@@@\
    @@@@@@@@@@@@@@@@\
    @@@@@@@@@@@\x3e@@@\x3f\
    \x34\x35\x36\x37\x38\x39\x3a\x3b\x3c\x3d@@@@@@\
    @\x00\x01\x02\x03\x04\x05\x06\x07\x08\x09\x0a\x0b\x0c\x0d\x0e\
    \x0f\x10\x11\x12\x13\x14\x15\x16\x17\x18\x19@@@@@\
    @\x1a\x1b\x1c\x1d\x1e\x1f\x20\x21\x22\x23\x24\x25\x26\x27\x28\
    \x29\x2a\x2b\x2c\x2d\x2e\x2f\x30\x31\x32\x33@@@@@\
    @@@@@@@@@@@@@@@@\
    @@@@@@@@@@@@@@@@\
    @@@@@@@@@@@@@@@@\
    @@@@@@@@@@@@@@@@\
    @@@@@@@@@@@@@@@@\
    @@@@@@@@@@@@@@@@\
    @@@@@@@@@@@@@@@@\
    @@@@@@@@@@@@@@@@\
";

// The alphabet, in order.
const ALPHABET: &[u8; 64] = b"ABCDEFGHIJKLMNOPQRSTUVWXYZabcdefghijklmnopqrstuvwxyz0123456789+/";

// What the table lists for a character.
fn listed(c: u8) -> u8
    ensures { result ≡ value c }
{
    VALUES[usize::from(c)]
}

// The value of a character, if it is of the alphabet.
pub(crate) fn value(c: u8) -> Option<u8>
    ensures { result ≡ (if known c then Some (value c) else None) }
{
    let value = listed(c);
    (value < 64).then_some(value)
}

// The character that stands for the low six bits of a number.
pub(crate) fn digit(n: u32) -> u8
    ensures { result ≡ digit (n % 64) }
{
    ALPHABET[(n % 64) as usize]
}
