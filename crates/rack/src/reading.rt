// The calls that read a slot: its machine, its verdict on a program, and its listing.
ghost use Rattle.std.specs.Prelude.{◌≡◌, length};
ghost use Rattle.tables.specs.Canonical.{slot_text};
ghost use Rattle.racks.specs.Racks.{slot as slot_of};
ghost use Rattle.racks.specs.Calls.{call_judge, call_list};
ghost use Rattle.racks.specs.Log.{Log, KeptIn};
ghost use Rattle.racks.specs.Promises.{judged_by, listed_by, Zeroed, VerdictLogged, ListLogged, ListedIn, Done};
ghost use Rattle.rack.specs.Reading.{Asks};

use lent::Cleared;
use listing::list_table;
use machines::{SlotTable, judge as judge_by};
use racks::Rack;
use store::{filled, refused};
use trees::{Reason, Refusal};

// The machine of a slot, for a loader that layers it and takes it in again.
pub fn machine<'a>(rack: Rack, store: &'a [u8], slot: usize) -> Result<SlotTable<'a>, Refusal>
    ensures { Asks rack store.now slot result }
{
    Ok(filled(rack, store, slot)?.machine())
}

// Whether the slot's table accepts the tree whose listing this is. The stack has a place for each open part.
pub fn judge(
    rack: Rack,
    store: &[u8],
    slot: usize,
    listing: &[u8],
    stack: &mut [u8],
) -> Result<bool, Refusal>
    ensures done { Done rack (call_judge slot listing.now (length stack.old)) store.now store.now (judged_by result) }
    ensures right { (log : Log) → KeptIn rack log store.now → VerdictLogged rack log slot listing.now (length stack.old) result }
    ensures stack { Zeroed stack.old stack.new }
{
    let stack = Cleared { cells: stack };
    let machine = filled(rack, store, slot)?.machine();
    judge_by(&machine, listing, stack.cells)
}

// Writes the listing of the slot's table into the buffer, and answers its length. Bytes behind it are untouched, and a
// refusal touches none.
pub fn list(rack: Rack, store: &[u8], slot: usize, buffer: &mut [u8]) -> Result<usize, Refusal>
    ensures done { Done rack (call_list slot (length buffer.old)) store.now store.now (listed_by result buffer.new) }
    ensures buffer { ListedIn (slot_text rack.shape rack.most (slot_of rack store.now slot)) buffer.old buffer.new result }
    ensures right { (log : Log) → KeptIn rack log store.now → ListLogged rack log slot result buffer.new }
{
    let image = filled(rack, store, slot)?.bytes();
    // The bytes of a slot are always an image, so only the buffer can be too short.
    list_table(rack.shape, rack.most, image, buffer).map_err(|_| refused(Reason::BufferTooShort))
}
