// Drop: a slot emptied.
ghost use Rattle.racks.specs.Calls.{call_drop};
ghost use Rattle.racks.specs.Promises.{filled_by, Done};

use racks::Rack;
use store::filled;
use trees::Refusal;

// Takes the table out of its slot, which may be filled again. Tables made from it stay.
pub fn drop(rack: Rack, store: &mut [u8], slot: usize) -> Result<(), Refusal>
    ensures { Done rack (call_drop slot) store.old store.new (filled_by result store.new) }
{
    let place = filled(rack, store, slot)?.place();
    place.clear(store);
    Ok(())
}
