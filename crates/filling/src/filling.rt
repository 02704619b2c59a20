// What the calls that fill a slot share: their memory guarded, the table built, and its bytes put in the slot.
ghost use Rattle.std.specs.Prelude.{ℕ};
ghost use Rattle.racks.specs.Calls.{Lent, Call};
ghost use Rattle.racks.specs.Promises.{lent, lent_by, Zeroed, filled_by, Done};
ghost use Rattle.filling.specs.Fillings.{Fills, SameMemory};

use lent::Cleared;
use racks::{Rack, Working};
use store::Place;
use trees::Refusal;

// A call that fills a slot, without its rack, store and result slot.
pub(crate) trait Filling {
    ghost call: { Self → ℕ → Lent → Call };

    // Makes the checks, and leaves the bytes of the table in the first cells. Answers where they go.
    fn build(
        &self,
        rack: Rack,
        store: &[u8],
        res: usize,
        working: &mut Working<'_>,
    ) -> Result<Place, Refusal>
        ensures fills { Fills rack store.now res (call self.now res (lent_by working.old)) working.new.cells.now result }
        ensures same { SameMemory working.old working.new };
}

// The memory is guarded before the first check, so that it ends all zeros on every way out.
pub(crate) fn fill<F: Filling>(
    filling: &F,
    rack: Rack,
    store: &mut [u8],
    res: usize,
    codes: &mut [u64],
    cells: &mut [u8],
    classes: &mut [u8],
) -> Result<(), Refusal>
    ensures done { Done rack (F.call filling.now res (lent codes.old cells.old classes.old)) store.old store.new (filled_by result store.new) }
    ensures codes { Zeroed codes.old codes.new }
    ensures cells { Zeroed cells.old cells.new }
    ensures classes { Zeroed classes.old classes.new }
{
    let codes = Cleared { cells: codes };
    let cells = Cleared { cells };
    let classes = Cleared { cells: classes };
    let mut working = Working {
        codes: &mut *codes.cells,
        cells: &mut *cells.cells,
        classes: &mut *classes.cells,
    };
    let place = filling.build(rack, store, res, &mut working)?;
    place.put(store, working.cells);
    Ok(())
}
