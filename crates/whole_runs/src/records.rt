// Run sheets written in words, and the bytes that they stand for.
//
// A line is a record: its mark, and behind it its fields in their order. `MP` and `SG` open a sheet or a segment, which the lines behind them fill up to the next record of the run sheet; lengths are not written. A string is a word, `-` where it is empty, and `0x` begins one in hexadecimal. A line that begins with `#` is a remark. Besides the marks of the rules there are
//
//     SVS n                                   n streams of the schemes A, B, C and so on
//     PLS n                                   n plays, to 1, 2, 3 and so on
//     RAW s                                   a string as it stands, or ZEROS n: n bytes of 0
//     EVS n flags time id step                n events of duration 0, each `step` later than the one before it; ids count up
//     EVL flags time n                        an event with n times `A` for a message
//     E0 scheme value ticks delta duration id message     an emsg box of version 0
//     E1 ticks time duration id scheme value message      an emsg box of version 1
//     BOX type body                           a box, or IN s: a string as it stands, in a sheet or segment
use std::alloc::Global;
use std::test::*;

// A run sheet in the making: its bytes, and those of the sheet or segment that is open.
#[derive(Drop)]
struct Draft {
    sheet: Bytes,
    inside: Option<Bytes>,
}

// The bytes of a run sheet.
pub(crate) fn run_sheet(heap: Global, text: &str) -> Result<Vec<u8>, Fail> {
    let mut draft = Draft {
        sheet: Bytes::new(heap),
        inside: None,
    };
    for line in text.lines() {
        draft.add(line)?;
    }
    draft.close()?;
    Ok(draft.sheet.bytes)
}

impl Draft {
    // Adds a line: to what is open, or to the run sheet itself.
    fn add(&mut self, line: &str) -> Result<(), Fail> {
        match word(line, 0).as_bytes() {
            b"ES" | b"EV" | b"EVS" | b"EVL" | b"E0" | b"E1" | b"BOX" | b"IN" => {
                match &mut self.inside {
                    Some(inside) => inside.add_inside(line),
                    None => Err(Fail::new("no sheet or segment is open")),
                }
            }
            _ => {
                self.close()?;
                self.add_command(line)
            }
        }
    }

    // Adds a record of the run sheet itself; `MP` and `SG` are then open.
    fn add_command(&mut self, line: &str) -> Result<(), Fail> {
        match word(line, 0).as_bytes() {
            b"" | b"#" => Ok(()),
            b"SVS" => self.sheet.add_streams(line),
            b"PLS" => self.sheet.add_plays(line),
            b"RAW" => self.sheet.add_string(word(line, 1)),
            b"ZEROS" => self.sheet.add_same(number(line, 1)?, 0),
            b"MP" | b"SG" => {
                self.inside = Some(Bytes::new(self.sheet.heap));
                self.sheet.add_record(line)
            }
            _ => self.sheet.add_record(line),
        }
    }

    // Closes what is open: its length, and then its bytes.
    fn close(&mut self) -> Result<(), Fail> {
        if let Some(inside) = self.inside.take() {
            self.sheet.add_number(2, inside.bytes.len() as u64)?;
            self.sheet.add(&inside.bytes)?;
        }
        Ok(())
    }
}

// The n-th word of a line, counted from 0; empty where there is none.
pub(crate) fn word<'a>(line: &'a str, n: usize) -> &'a str {
    line.split_ascii_whitespace().nth(n).unwrap_or("")
}

// The number that is the n-th word of a line.
pub(crate) fn number(line: &str, n: usize) -> Result<u64, Fail> {
    Ok(word(line, n).parse::<u64>()?)
}

// The value of a digit.
fn hexadecimal(digit: u8) -> u8 {
    match digit {
        b'0'..=b'9' => digit - b'0',
        b'a'..=b'f' => digit - b'a' + 10,
        _ => 0,
    }
}

// How the fields of a record lie in its bytes: for each a digit, the word that it is in, behind how it is written. 1, 4 and 8 are numbers of so many bytes, `l` and `m` lengths of a string in one byte and in two, `s` a string and `z` one that is closed by a 0 byte.
fn layout(mark: &[u8]) -> &'static [u8] {
    match mark {
        b"SV" => b"l1l2s1s2",
        b"FO" => b"1112",
        b"LV" => b"11",
        b"PL" | b"SK" | b"MP" => b"81",
        b"EX" => b"8182",
        b"SG" => b"818283448546",
        b"ES" => b"4182l3l4s3s4",
        b"EV" => b"11824344m5s5",
        b"E0" => b"z1z243444546s7",
        b"E1" => b"41824344z5z6s7",
        _ => b"",
    }
}

// Bytes in the making.
#[derive(Drop)]
struct Bytes {
    heap: Global,
    bytes: Vec<u8>,
}

impl Bytes {
    // No bytes yet.
    fn new(heap: Global) -> Bytes {
        Bytes {
            heap,
            bytes: Vec::new(heap),
        }
    }

    // Adds bytes as they stand.
    fn add(&mut self, bytes: &[u8]) -> Result<(), Fail> {
        Ok(self.bytes.extend_from_slice(bytes)?)
    }

    // Adds the same byte so many times.
    fn add_same(&mut self, count: u64, byte: u8) -> Result<(), Fail> {
        for _ in 0..count {
            self.bytes.push(byte)?;
        }
        Ok(())
    }

    // Adds a number of so many bytes.
    fn add_number(&mut self, width: u8, number: u64) -> Result<(), Fail> {
        match width {
            1 => self.add(&u8::try_from(number)?.to_be_bytes()),
            2 => self.add(&u16::try_from(number)?.to_be_bytes()),
            4 => self.add(&u32::try_from(number)?.to_be_bytes()),
            _ => self.add(&number.to_be_bytes()),
        }
    }

    // Adds the bytes of a string.
    fn add_string(&mut self, word: &str) -> Result<(), Fail> {
        match word.as_bytes() {
            b"-" => Ok(()),
            [b'0', b'x', digits @ ..] => self.add_hexadecimal(digits),
            text => self.add(text),
        }
    }

    // Adds a byte for each two digits.
    fn add_hexadecimal(&mut self, digits: &[u8]) -> Result<(), Fail> {
        let (pairs, _) = digits.as_chunks::<2>();
        for [high, low] in pairs {
            self.bytes
                .push(hexadecimal(*high) << 4 | hexadecimal(*low))?;
        }
        Ok(())
    }

    // Adds the fields of a line.
    fn add_fields(&mut self, line: &str) -> Result<(), Fail> {
        let (fields, _) = layout(word(line, 0).as_bytes()).as_chunks::<2>();
        for [form, place] in fields {
            self.add_field(*form, line, usize::from(hexadecimal(*place)))?;
        }
        Ok(())
    }

    // Adds a field that is in the n-th word.
    fn add_field(&mut self, form: u8, line: &str, n: usize) -> Result<(), Fail> {
        let mut string = Bytes::new(self.heap);
        string.add_string(word(line, n))?;
        match form {
            b'l' => self.add_number(1, string.bytes.len() as u64),
            b'm' => self.add_number(2, string.bytes.len() as u64),
            b's' => self.add(&string.bytes),
            b'z' => {
                self.add(&string.bytes)?;
                self.add(b"\0")
            }
            width => self.add_number(hexadecimal(width), number(line, n)?),
        }
    }

    // Adds a record: its mark and its fields.
    fn add_record(&mut self, line: &str) -> Result<(), Fail> {
        self.add(word(line, 0).as_bytes())?;
        self.add_fields(line)
    }

    // Adds a line of a sheet or a segment.
    fn add_inside(&mut self, line: &str) -> Result<(), Fail> {
        match word(line, 0).as_bytes() {
            b"EVS" => self.add_events(line),
            b"EVL" => self.add_long_event(line),
            b"E0" | b"E1" | b"BOX" => self.add_box(line),
            b"IN" => self.add_string(word(line, 1)),
            _ => self.add_record(line),
        }
    }

    // Adds a box: its size, its type and its body.
    fn add_box(&mut self, line: &str) -> Result<(), Fail> {
        let mut body = Bytes::new(self.heap);
        match word(line, 0).as_bytes() {
            b"E0" => body.add(b"emsg\0\0\0\0")?,
            b"E1" => body.add(b"emsg\x01\0\0\0")?,
            _ => {
                body.add_string(word(line, 1))?;
                body.add_string(word(line, 2))?;
            }
        }
        body.add_fields(line)?;
        self.add_number(4, (body.bytes.len() as u64).wrapping_add(4))?;
        self.add(&body.bytes)
    }

    // Adds an event of these flags, time and id, with no duration.
    fn add_event(&mut self, flags: u64, time: u64, id: u64) -> Result<(), Fail> {
        self.add(b"EV")?;
        self.add_number(1, flags)?;
        self.add_number(8, time)?;
        self.add_number(4, 0)?;
        self.add_number(4, id)
    }

    // Adds the events of an `EVS`.
    fn add_events(&mut self, line: &str) -> Result<(), Fail> {
        let flags = number(line, 2)?;
        let time = number(line, 3)?;
        let id = number(line, 4)?;
        let step = number(line, 5)?;
        let named = u64::from(flags & 2 != 0);
        for n in 0..number(line, 1)? {
            let later = n.wrapping_mul(step);
            self.add_event(
                flags,
                time.wrapping_add(later),
                id.wrapping_add(n.wrapping_mul(named)),
            )?;
            self.add_number(2, 0)?;
        }
        Ok(())
    }

    // Adds the event of an `EVL`.
    fn add_long_event(&mut self, line: &str) -> Result<(), Fail> {
        let length = number(line, 3)?;
        self.add_event(number(line, 1)?, number(line, 2)?, 0)?;
        self.add_number(2, length)?;
        self.add_same(length, b'A')
    }

    // Adds the streams of an `SVS`.
    fn add_streams(&mut self, line: &str) -> Result<(), Fail> {
        for n in 0..number(line, 1)? {
            self.add(b"SV\x01\0")?;
            self.add_number(1, n.wrapping_add(65))?;
        }
        Ok(())
    }

    // Adds the plays of a `PLS`.
    fn add_plays(&mut self, line: &str) -> Result<(), Fail> {
        for n in 0..number(line, 1)? {
            self.add(b"PL")?;
            self.add_number(8, n.wrapping_add(1))?;
        }
        Ok(())
    }
}
