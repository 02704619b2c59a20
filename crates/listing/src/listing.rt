// The listing of a table, written from a slot's bytes into a lent buffer.
ghost use Rattle.listing.specs.Listings.{Listed, Tells};

use crate::text::Slot;
use trees::Shape;

// Why a listing is not written: the buffer is shorter than the text's length, or the numbers or the image do not serve.
#[derive(Clone, Copy, PartialEq, Eq, Debug)]
pub enum Unwritten {
    Short(usize),
    Unserved,
}

// Writes the text of the table that the image is, whatever its bytes are, at the front of the buffer, and answers its length.
// The length is counted first, so that a buffer too short is left as it was.
#[tactic(auto, using(crate::proofs::Texts::slot_tells))]
pub fn list_table(
    shape: Shape,
    most: usize,
    image: &[u8],
    buffer: &mut [u8],
) -> Result<usize, Unwritten>
    ensures answer { Listed shape most image.now buffer.old buffer.new result }
    ensures tells { Tells shape most image.now }
{
    let slot = Slot::new(shape, most, image).ok_or(Unwritten::Unserved)?;
    let length = slot.text_length();
    if buffer.len() < length {
        return Err(Unwritten::Short(length));
    }
    slot.write_text(buffer);
    Ok(length)
}
