// A stretch of the media buffer, which a reader is made over.
ghost use Rattle.std.specs.Prelude.{◌≡◌};
ghost use Rattle.std.specs.List.{between};
ghost use Rattle.media.specs.Stretches.{left, made, part, stretch};

use event::Refusal;

// The media buffer, and the places in it where the stretch begins and ends.
#[derive(Clone, Copy)]
pub struct Stretch<'a> {
    pub media: &'a [u8],
    pub from: u32,
    pub to: u32,
}

impl<'a> Stretch<'a> {
    // The most bytes that a media buffer has.
    pub const MOST: usize = 65_536;

    // The stretch from one place up to another, unless the buffer is too long or the stretch is not inside it.
    pub fn new(media: &'a [u8], from: usize, to: usize) -> Result<Stretch<'a>, Refusal>
        ensures { made result ≡ stretch media.now from to }
    {
        if media.len() > Self::MOST || to > media.len() || from > to {
            return Err(Refusal::OutsideMedia);
        }
        Ok(Stretch {
            media,
            from: from as u32,
            to: to as u32,
        })
    }

    // Its bytes.
    pub fn bytes(&self) -> &'a [u8]
        ensures { result.now ≡ part self.now }
    {
        cut(self.media, self.from, self.to)
    }

    // The bytes from a place on.
    pub fn left(&self, place: u32) -> &'a [u8]
        ensures { result.now ≡ left self.now place }
    {
        cut(self.media, place, self.to)
    }
}

// The bytes from one place up to another, as far as there are such.
pub fn cut(media: &[u8], from: u32, to: u32) -> &[u8]
    ensures { result.now ≡ between from to media.now }
{
    let end = media.len().min(to as usize);
    let start = end.min(from as usize);
    &media[start..end]
}
