// The discovery of the codes that a machine reaches.
// Every question is asked once, in the order of places: leaf steps, then ring by ring the inner steps over a code found and
// those before it. So the codes are numbered as first met with no sorting, and a ring may lengthen the list it walks.
ghost use Rattle.std.specs.Prelude.{◌≡◌, ◌+◌, ◌*◌, ◌<◌, ◌≤◌, length, take, MatchResult};
ghost use Rattle.automata.specs.Numbering.{pair_place};
ghost use Rattle.tables.specs.Tables.{TooMany as TooManyCodes};
ghost use Rattle.tables.specs.Images.{leaf_rows, inner_rows};
ghost use Rattle.build.specs.Discovery.{Kept, Discovering, Ready, Discovered};

use crate::found::{Found, TooMany};
use crate::steps::inner_step;
use machine::Machine;
use slots::Layout;

impl Found<'_> {
    // Asks every leaf step.
    fn ask_leaves<M: Machine>(&mut self, machine: &M) -> Result<(), TooMany>
        requires { Discovering (M.Machine.meaning machine.now) self.old 0 }
        ensures kept { Kept self.old self.new }
        ensures asked { MatchResult result (λ _. Discovering (M.Machine.meaning machine.now) self.new (leaf_rows self.old.layout.shape)) (λ _. TooManyCodes (M.Machine.meaning machine.now) self.old.layout.most) }
    {
        let layout = self.layout;
        for row in 0..layout.leaf_rows() {
            let (label, marks) = layout.step(row);
            let code = machine.leaf(label, marks);
            self.note(layout.leaf_address(label, marks), code)?;
        }
        Ok(())
    }

    // Asks every inner step over one pair of codes found.
    fn ask_pair<M: Machine>(&mut self, machine: &M, x: usize, y: usize) -> Result<(), TooMany>
        requires sofar { Discovering (M.Machine.meaning machine.now) self.old (leaf_rows self.old.layout.shape + pair_place x y * inner_rows self.old.layout.shape) }
        requires over { (x < self.old.len) × (y < self.old.len) }
        ensures kept { Kept self.old self.new }
        ensures asked { MatchResult result (λ _. Discovering (M.Machine.meaning machine.now) self.new (leaf_rows self.old.layout.shape + (pair_place x y + 1) * inner_rows self.old.layout.shape)) (λ _. TooManyCodes (M.Machine.meaning machine.now) self.old.layout.most) }
    {
        let layout = self.layout;
        for row in 0..layout.inner_rows() {
            let (label, marks) = inner_step(layout, row);
            let code = machine.inner(label, marks, self.codes[x], self.codes[y]);
            self.note(layout.inner_address(label, marks, x, y), code)?;
        }
        Ok(())
    }

    // Asks every inner step over a code found and those before it.
    fn ask_ring<M: Machine>(&mut self, machine: &M, ring: usize) -> Result<(), TooMany>
        requires sofar { Discovering (M.Machine.meaning machine.now) self.old (leaf_rows self.old.layout.shape + ring * ring * inner_rows self.old.layout.shape) }
        requires over { ring < self.old.len }
        ensures kept { Kept self.old self.new }
        ensures asked { MatchResult result (λ _. Discovering (M.Machine.meaning machine.now) self.new (leaf_rows self.old.layout.shape + (ring + 1) * (ring + 1) * inner_rows self.old.layout.shape)) (λ _. TooManyCodes (M.Machine.meaning machine.now) self.old.layout.most) }
    {
        for turn in 0..2 * ring + 1 {
            let (x, y) = pair_at(ring, turn);
            self.ask_pair(machine, x, y)?;
        }
        Ok(())
    }
}

// The pair at a turn of a ring: those with the later code at the right, then those with it at the left alone.
fn pair_at(ring: usize, turn: usize) -> (usize, usize)
    requires { (ring < 32) × (turn < 2 * ring + 1) }
    ensures place { pair_place result.0 result.1 ≡ ring * ring + turn }
    ensures over { (result.0 ≤ ring) × (result.1 ≤ ring) }
{
    if turn <= ring {
        (turn, ring)
    } else {
        (ring, turn - ring - 1)
    }
}

// Finds every code that the machine reaches, and writes the index of each step's code at the step's address.
pub(crate) fn discover<M: Machine>(
    machine: &M,
    layout: Layout,
    codes: &mut [u64],
    cells: &mut [u8],
) -> Result<usize, TooMany>
    requires ready { Ready (M.Machine.meaning machine.now) layout (length codes.old) (length cells.old) }
    ensures { MatchResult result (λ len. Discovered (M.Machine.meaning machine.now) layout.most len (take len codes.new) cells.new) (λ _. TooManyCodes (M.Machine.meaning machine.now) layout.most) }
{
    let mut found = Found {
        layout,
        codes,
        len: 0,
        cells,
    };
    found.ask_leaves(machine)?;
    let mut ring = 0;
    // not over a range, since a ring may find codes, and there is a ring for each
    while ring < found.len {
        found.ask_ring(machine, ring)?;
        ring += 1;
    }
    Ok(found.len)
}
