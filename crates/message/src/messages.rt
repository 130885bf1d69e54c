// Handing out the message of an event.
ghost use Rattle.std.specs.Prelude.{◌≡◌};
ghost use Rattle.message.specs.Messages.{handed, message_of, part};

use event::{Message, Refusal};

// So many bytes from a place on, unless they are not all there.
fn part(buffer: &[u8], place: usize, length: usize) -> Result<&[u8], Refusal>
    ensures { handed result ≡ part place length buffer.now }
{
    if place > buffer.len() || length > buffer.len() - place {
        return Err(Refusal::OutsideBuffer);
    }
    Ok(&buffer[place..place + length])
}

// The message's part of the media buffer or, for base64, the front of the decoded buffer, of the length that decoding answered.
pub fn message<'a>(
    message: Message,
    media: &'a [u8],
    decoded: &'a [u8],
    decoded_length: usize,
) -> Result<&'a [u8], Refusal>
    ensures { handed result ≡ message_of message media.now decoded.now decoded_length }
{
    if message.base64 {
        part(decoded, 0, decoded_length)
    } else {
        part(media, message.place as usize, message.length as usize)
    }
}
