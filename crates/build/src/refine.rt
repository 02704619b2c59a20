// The refining of the codes found into classes of alike ones.
// Final codes are parted from the others, then classes by their steps, until a round parts none. A round is quadratic in
// the codes and needs no memory but the next classes: there are 32 codes at most.
ghost use Rattle.std.specs.Prelude.{◌≡◌, ℕ, ◌+◌, ◌/◌, ◌%◌, ◌^◌, ◌<◌, ◌≤◌, length, MatchOption};
ghost use Rattle.trees.specs.Shapes.{InnerLabel, Marks};
ghost use Rattle.automata.specs.Atoms.{one_if};
ghost use Rattle.tables.specs.Exploring.{code_at};
ghost use Rattle.tables.specs.Rounds.{Numbering};
ghost use Rattle.tables.specs.Images.{inner_rows};
ghost use Rattle.build.specs.Discovery.{Ready, Discovered};
ghost use Rattle.build.specs.Refinement.{class_at, step_at, Indexed, AgreesWith, StepAgrees, StepsAgree, Agreed, Tells, Classed};

use crate::steps::inner_step;
use machine::Machine;
use slots::Layout;

// A round: the cells of the steps over indices of codes, and the class of each index as the round begins.
// Indices, label and marks stay plain numbers: what is asked of them is about this round, which a struct of them would hold again.
#[derive(Clone, Copy)]
struct Round<'a> {
    layout: Layout,
    cells: &'a [u8],
    classes: &'a [u8],
    ghost indexed: { Indexed layout (length classes.now) cells.now },
}

impl Round<'_> {
    // The class of an inner step.
    fn step_class(&self, label: u8, marks: u8, x: usize, y: usize) -> u8
        requires step { (InnerLabel self.now.layout.shape label) × (Marks self.now.layout.shape marks) }
        requires below { (x < length self.now.classes.now) × (y < length self.now.classes.now) }
        ensures { result ≡ class_at self.now.classes.now (step_at self.now.layout self.now.cells.now label marks x y) }
    {
        let cell = self.cells[self.layout.inner_address(label, marks, x, y)];
        self.classes[usize::from(cell)]
    }

    // Whether steps on two codes, each with the code z, are of one class.
    fn agrees_with(&self, label: u8, marks: u8, x: usize, y: usize, z: usize) -> bool
        requires step { (InnerLabel self.now.layout.shape label) × (Marks self.now.layout.shape marks) }
        requires below { (x < length self.now.classes.now) × (y < length self.now.classes.now) × (z < length self.now.classes.now) }
        ensures { Tells result (AgreesWith self.now.layout self.now.cells.now self.now.classes.now label marks x y z) }
    {
        self.step_class(label, marks, x, z) == self.step_class(label, marks, y, z)
            && self.step_class(label, marks, z, x) == self.step_class(label, marks, z, y)
    }

    // Whether steps on two codes are of one class, with the label and marks of a row.
    fn row_agrees(&self, row: usize, x: usize, y: usize) -> bool
        requires row { row < inner_rows self.now.layout.shape }
        requires below { (x < length self.now.classes.now) × (y < length self.now.classes.now) }
        ensures { Tells result (StepAgrees self.now.layout (length self.now.classes.now) self.now.cells.now self.now.classes.now (self.now.layout.shape.leaves + row / 2 ^ self.now.layout.shape.tracks) (row % 2 ^ self.now.layout.shape.tracks) x y) }
    {
        let (label, marks) = inner_step(self.layout, row);
        (0..self.classes.len()).all(|z| self.agrees_with(label, marks, x, y, z))
    }

    fn steps_agree(&self, x: usize, y: usize) -> bool
        requires below { (x < length self.now.classes.now) × (y < length self.now.classes.now) }
        ensures { Tells result (StepsAgree self.now.layout (length self.now.classes.now) self.now.cells.now self.now.classes.now x y) }
    {
        (0..self.layout.inner_rows()).all(|row| self.row_agrees(row, x, y))
    }

    fn agree(&self, x: usize, y: usize) -> bool
        requires below { (x < length self.now.classes.now) × (y < length self.now.classes.now) }
        ensures { Tells result (Agreed self.now.layout (length self.now.classes.now) self.now.cells.now self.now.classes.now x y) }
    {
        self.classes[x] == self.classes[y] && self.steps_agree(x, y)
    }

    // The first code before x that agrees with it.
    fn partner(&self, x: usize) -> Option<usize>
        requires { x < length self.now.classes.now }
        ensures { MatchOption result ((y : ℕ) → y < x → Agreed self.now.layout (length self.now.classes.now) self.now.cells.now self.now.classes.now y x → ⊥) (λ y. (y < x) × Agreed self.now.layout (length self.now.classes.now) self.now.cells.now self.now.classes.now y x) }
    {
        (0..x).find(|y| self.agree(*y, x))
    }

    // Parts the classes by their steps, and says how many there are then.
    fn part(&self, next: &mut [u8]) -> u8
        requires { length self.now.classes.now ≤ length next.old }
        ensures { Numbering (Agreed self.now.layout (length self.now.classes.now) self.now.cells.now self.now.classes.now) (class_at next.new) (length self.now.classes.now) result }
    {
        let mut count = 0;
        // by index, since the class of an earlier code is read back from the slice that is written
        for x in 0..self.classes.len() {
            match self.partner(x) {
                Some(y) => {
                    next[x] = next[y];
                }
                None => {
                    next[x] = count;
                    count += 1;
                }
            }
        }
        count
    }
}

// Two classes: final codes, and the others.
fn part_finals<M: Machine>(machine: &M, codes: &[u64], classes: &mut [u8])
    requires { length codes.now ≤ length classes.old }
    ensures { (x : ℕ) → x < length codes.now → class_at classes.new x ≡ one_if ((M.Machine.meaning machine.now).final (code_at codes.now x)) }
{
    for (x, code) in codes.iter().enumerate() {
        classes[x] = u8::from(machine.is_final(*code));
    }
}

// Numbers the classes of alike codes, and says how many there are.
pub(crate) fn refine<M: Machine>(
    machine: &M,
    layout: Layout,
    codes: &[u64],
    cells: &[u8],
    classes: &mut [u8],
    next: &mut [u8],
) -> u8
    requires ready { Ready (M.Machine.meaning machine.now) layout layout.most (length cells.now) }
    requires discovered { Discovered (M.Machine.meaning machine.now) layout.most (length codes.now) codes.now cells.now }
    requires lent { (length classes.old ≡ length codes.now) × (length next.old ≡ length codes.now) }
    ensures { Classed (M.Machine.meaning machine.now) codes.now classes.new (length codes.now) result }
{
    part_finals(machine, codes, classes);
    let mut count = 0;
    loop {
        let round = Round {
            layout,
            cells,
            classes,
        };
        let found = round.part(next);
        classes.copy_from_slice(next);
        if found == count {
            return count;
        }
        count = found;
    }
}
