// The boxes of a segment: how each says its size, and what a reader does with it.
ghost use Rattle.std.specs.Prelude.{◌≡◌};
ghost use Rattle.segment.specs.Boxes.{body, head, kind, large_size, size_of, judged, span, version};

use crate::timings::Version;
use event::Defect;

// How a box says its size: not at all, by its first number, by a longer one, or by reaching to the end.
#[derive(Clone, Copy)]
pub enum Size {
    Cut,
    Plain(u32),
    Large(u64),
    Rest,
}

// The type of the boxes that hold events: `emsg`.
const EMSG: u32 = 0x656d_7367;

// The size that stands at the front of the bytes behind the type.
fn large(bytes: &[u8]) -> Size
    ensures { result ≡ large_size bytes.now }
{
    match bytes.first_chunk::<8>() {
        Some(size) => Size::Large(u64::from_be_bytes(*size)),
        None => Size::Cut,
    }
}

// The type of the box at the front of the bytes, unless it is cut.
pub(crate) fn kind(bytes: &[u8]) -> Option<u32>
    ensures { result ≡ kind bytes.now }
{
    let (_size, rest) = bytes.split_first_chunk::<4>()?;
    let kind = rest.first_chunk::<4>()?;
    Some(u32::from_be_bytes(*kind))
}

impl Size {
    // How the box at the front of the bytes says its size.
    pub(crate) fn of(bytes: &[u8]) -> Size
        ensures { result ≡ size_of bytes.now }
    {
        let [s0, s1, s2, s3, _, _, _, _, rest @ ..] = bytes else {
            return Size::Cut;
        };
        match u32::from_be_bytes([*s0, *s1, *s2, *s3]) {
            0 => Size::Rest,
            1 => large(rest),
            n => Size::Plain(n),
        }
    }

    // The length of the box's head.
    fn head(self) -> usize
        ensures { result ≡ head self }
    {
        match self {
            Size::Large(_) => 16,
            _ => 8,
        }
    }

    // The box's size, where so many bytes are left.
    pub(crate) fn span(self, left: usize) -> usize
        ensures { result ≡ span self left }
    {
        match self {
            Size::Cut => 0,
            Size::Plain(n) => n as usize,
            Size::Large(n) => n as usize,
            Size::Rest => left,
        }
    }

    // What stands behind the head of the box at the front of the bytes, as far as it is there.
    pub(crate) fn body(self, bytes: &[u8]) -> &[u8]
        ensures { result.now ≡ body self bytes.now }
    {
        let end = bytes.len().min(self.span(bytes.len()));
        let start = end.min(self.head());
        &bytes[start..end]
    }
}

// The version at the front of a body, unless it or the flags behind it are cut.
pub(crate) fn version(body: &[u8]) -> Option<u8>
    ensures { result ≡ version body.now }
{
    match body {
        [version, _, _, _, ..] => Some(*version),
        _ => None,
    }
}

// The version of a box that gives a record, none where the box is stepped over, or what is wrong with it: by its size, where so many bytes are left, its type and its version.
pub(crate) fn judge(
    size: Size,
    left: usize,
    kind: Option<u32>,
    version: Option<u8>,
) -> Result<Option<Version>, Defect>
    ensures { result ≡ judged size left kind version }
{
    match (size, kind, version) {
        (Size::Cut, _, _) => Err(Defect::BoxSize),
        (Size::Plain(n), _, _) if n < 8 || n as usize > left => Err(Defect::BoxSize),
        (Size::Large(n), _, _) if n < 16 || n as usize > left => Err(Defect::BoxSize),
        (_, Some(EMSG), None) => Err(Defect::BoxFields),
        (_, Some(EMSG), Some(0)) => Ok(Some(Version::Zero)),
        (_, Some(EMSG), Some(1)) => Ok(Some(Version::One)),
        _ => Ok(None),
    }
}
