// A machine's table built for a slot, in lent memory.
ghost use Rattle.std.specs.Prelude.{◌≡◌};
ghost use Rattle.atoms.specs.Making.{asked};
ghost use Rattle.racks.specs.Promises.{lent_by};
ghost use Rattle.filling.specs.Fillings.{Makes, MakesAtom, SameMemory};

use atoms::{Atom, Below, Lab, Left, Right, Sing, Sub};
use build::{Unbuilt, build_cleared};
use machine::Machine;
use racks::Working;
use store::{Place, Slot, refused};
use trees::{Reason, Refusal};

// Leaves the bytes of the machine's table in the first cells, and answers where they go.
pub(crate) fn build_in<M: Machine>(
    slot: Slot<'_>,
    machine: &M,
    working: &mut Working<'_>,
) -> Result<Place, Refusal>
    requires { (M.Machine.meaning machine.now).shape ≡ slot.slots.rack.shape }
    ensures made { Makes slot.entry (M.Machine.meaning machine.now) (lent_by working.old) working.new.cells.now result }
    ensures same { SameMemory working.old working.new }
{
    let most = slot.slots.rack.most;
    // neither type is of this crate, so there is no `From` between them
    match build_cleared(machine, most, working.codes, working.cells, working.classes) {
        Ok(_) => Ok(slot.place()),
        Err(Unbuilt::TooMany) => Err(refused(Reason::TooManyStates)),
        Err(Unbuilt::Unserved) => Err(refused(Reason::MemoryTooShort)),
    }
}

// The same for an atom's machine, where it is made. Six types of machine: each arm makes its own.
pub(crate) fn build_atom(
    slot: Slot<'_>,
    atom: Atom,
    working: &mut Working<'_>,
) -> Result<Place, Refusal>
    ensures made { MakesAtom slot.entry (asked atom) (lent_by working.old) working.new.cells.now result }
    ensures same { SameMemory working.old working.new }
{
    let shape = slot.slots.rack.shape;
    match atom {
        Atom::Sub(i, j) => build_in(slot, &Sub::new(shape, i, j)?, working),
        Atom::Lab(i, a) => build_in(slot, &Lab::new(shape, i, a)?, working),
        Atom::Sing(i) => build_in(slot, &Sing::new(shape, i)?, working),
        Atom::Left(i, j) => build_in(slot, &Left::new(shape, i, j)?, working),
        Atom::Right(i, j) => build_in(slot, &Right::new(shape, i, j)?, working),
        Atom::Below(i, j) => build_in(slot, &Below::new(shape, i, j)?, working),
    }
}
