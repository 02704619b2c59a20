// Make: a rack in a store.
ghost use Rattle.racks.specs.Guarantee.{Guarantee};
ghost use Rattle.racks.specs.Promises.{rack_of, MakesRack};

use racks::Rack;
use store::{Slots, refused};
use trees::{Reason, Refusal, Shape};

// A rack of these numbers. Its slots' bytes are zeroed, and no others are touched. What is guaranteed of every rack made so,
// through any calls that follow, is said here whole.
pub fn make(
    leaves: usize,
    inners: usize,
    tracks: usize,
    most: usize,
    slots: usize,
    store: &mut [u8],
) -> Result<Rack, Refusal>
    ensures made { MakesRack (rack_of leaves inners tracks most slots) store.old store.new result }
    ensures whole { Guarantee }
{
    let Some(shape) = Shape::new(leaves, inners, tracks) else {
        return Err(refused(Reason::OutsideLimits));
    };
    let rack = Rack { shape, most, slots };
    let width = Slots::open(rack, store)?.width;
    store[..slots * width].fill(0);
    Ok(rack)
}
