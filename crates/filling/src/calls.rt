// The calls that fill a slot. Working memory ends all zeros on every way out. Each call takes it apart itself: of a struct of
// slices that is handed on whole, a caller is not told what the slices end as.
ghost use Rattle.atoms.specs.Making.{asked};
ghost use Rattle.racks.specs.Calls.{call_atom, call_not, call_both, call_either, call_some, call_take};
ghost use Rattle.racks.specs.Promises.{lent_by, AllZeroed, filled_by, Done};

use crate::filling::fill;
use crate::fillings::{Complement, Pair, Projection, Taken};
use atoms::Atom;
use layers::{And, Or};
use machine::Machine;
use racks::{Rack, Working};
use trees::Refusal;

// The atom's table in the result slot.
pub fn atom(
    rack: Rack,
    store: &mut [u8],
    res: usize,
    atom: Atom,
    working: Working<'_>,
) -> Result<(), Refusal>
    ensures done { Done rack (call_atom res (asked atom) (lent_by working.entry)) store.old store.new (filled_by result store.new) }
    ensures cleared { AllZeroed working.entry working.exit.0.now working.exit.1.0.now working.exit.1.1.0.now }
{
    let Working {
        codes,
        cells,
        classes,
    } = working;
    fill(&atom, rack, store, res, codes, cells, classes)
}

// The table of what the source's table does not accept.
pub fn not(
    rack: Rack,
    store: &mut [u8],
    res: usize,
    source: usize,
    working: Working<'_>,
) -> Result<(), Refusal>
    ensures done { Done rack (call_not res source (lent_by working.entry)) store.old store.new (filled_by result store.new) }
    ensures cleared { AllZeroed working.entry working.exit.0.now working.exit.1.0.now working.exit.1.1.0.now }
{
    let Working {
        codes,
        cells,
        classes,
    } = working;
    let call = Complement { source };
    fill(&call, rack, store, res, codes, cells, classes)
}

// The table of what both accept.
pub fn both(
    rack: Rack,
    store: &mut [u8],
    res: usize,
    left: usize,
    right: usize,
    working: Working<'_>,
) -> Result<(), Refusal>
    ensures done { Done rack (call_both res left right (lent_by working.entry)) store.old store.new (filled_by result store.new) }
    ensures cleared { AllZeroed working.entry working.exit.0.now working.exit.1.0.now working.exit.1.1.0.now }
{
    let Working {
        codes,
        cells,
        classes,
    } = working;
    let pair = Pair {
        connective: And,
        left,
        right,
    };
    fill(&pair, rack, store, res, codes, cells, classes)
}

// The table of what one of them accepts.
pub fn either(
    rack: Rack,
    store: &mut [u8],
    res: usize,
    left: usize,
    right: usize,
    working: Working<'_>,
) -> Result<(), Refusal>
    ensures done { Done rack (call_either res left right (lent_by working.entry)) store.old store.new (filled_by result store.new) }
    ensures cleared { AllZeroed working.entry working.exit.0.now working.exit.1.0.now working.exit.1.1.0.now }
{
    let Working {
        codes,
        cells,
        classes,
    } = working;
    let pair = Pair {
        connective: Or,
        left,
        right,
    };
    fill(&pair, rack, store, res, codes, cells, classes)
}

// The table of what some set of nodes, put in the track, makes the source's table accept.
pub fn some(
    rack: Rack,
    store: &mut [u8],
    res: usize,
    source: usize,
    track: usize,
    working: Working<'_>,
) -> Result<(), Refusal>
    ensures done { Done rack (call_some res source track (lent_by working.entry)) store.old store.new (filled_by result store.new) }
    ensures cleared { AllZeroed working.entry working.exit.0.now working.exit.1.0.now working.exit.1.1.0.now }
{
    let Working {
        codes,
        cells,
        classes,
    } = working;
    let call = Projection { source, track };
    fill(&call, rack, store, res, codes, cells, classes)
}

// The table of a machine of any make.
pub fn take<M: Machine>(
    rack: Rack,
    store: &mut [u8],
    res: usize,
    machine: &M,
    working: Working<'_>,
) -> Result<(), Refusal>
    ensures done { Done rack (call_take res (M.Machine.meaning machine.now) (lent_by working.entry)) store.old store.new (filled_by result store.new) }
    ensures cleared { AllZeroed working.entry working.exit.0.now working.exit.1.0.now working.exit.1.1.0.now }
{
    let Working {
        codes,
        cells,
        classes,
    } = working;
    let call = Taken { machine };
    fill(&call, rack, store, res, codes, cells, classes)
}
