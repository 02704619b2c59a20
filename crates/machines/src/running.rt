// The run of a machine over a listing: the code of the tree, worked out from the leaves up.
ghost use Rattle.std.specs.Prelude.{◌≡◌, length, replicate};
ghost use Rattle.trees.specs.Parts.{places};
ghost use Rattle.machines.specs.Runs.{CodeOf, Ran, Judged};

use crate::cell::Code;
use lent::Cleared;
use machine::Machine;
use trees::{Algebra, Refusal, Values, read};

// The code of a tree, as a stack's numbers hold it.
#[derive(Drop)]
struct Codes<'m, M> {
    machine: &'m M,
}

impl<M: Machine, C: Code> Algebra<C> for Codes<'_, M> {
    ghost comes_to = { λ a t c. CodeOf (M.Machine.meaning a.machine.now) C.Code.limit t (C.Code.value c) };

    fn leaf(&self, label: u8, marks: u8) -> C {
        C::put(self.machine.leaf(label, marks))
    }

    fn inner(&self, label: u8, marks: u8, left: C, right: C) -> C {
        C::put(self.machine.inner(label, marks, left.get(), right.get()))
    }
}

// The code of the tree whose listing this is, or the first refusal due. The stack has a place for each open part; its
// numbers must hold every code below the machine's count, or the code answered is free.
pub fn run<M: Machine, C: Code>(
    machine: &M,
    listing: &[u8],
    stack: &mut [C],
) -> Result<u64, Refusal>
    ensures answer { Ran (M.Machine.meaning machine.now) C.Code.limit (places stack.old) listing.now result }
    ensures cleared { stack.new ≡ replicate (length stack.old) C.Zero.null }
{
    let guard = Cleared { cells: stack };
    let mut codes = Values {
        algebra: Codes { machine },
        stack: &mut *guard.cells,
    };
    read(machine.shape(), listing, &mut codes)?;
    Ok(codes.stack[0].get())
}

// Whether the machine accepts the tree whose listing this is; otherwise as `run`.
pub fn judge<M: Machine, C: Code>(
    machine: &M,
    listing: &[u8],
    stack: &mut [C],
) -> Result<bool, Refusal>
    ensures answer { Judged (M.Machine.meaning machine.now) C.Code.limit (places stack.old) listing.now result }
    ensures cleared { stack.new ≡ replicate (length stack.old) C.Zero.null }
{
    let code = run(machine, listing, stack)?;
    Ok(machine.is_final(code))
}
