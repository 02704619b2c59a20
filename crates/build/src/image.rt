// The writing of the classes' table over the cells of the codes.
// The cells are written in place and in ascending order: the first index of a class is at least the number of the class, so
// what is read has not been written yet.
ghost use Rattle.std.specs.Prelude.{◌≡◌, ℕ, ◌+◌, ◌*◌, ◌<◌, ◌≤◌, true, false, length, MatchOption, slice_index};
ghost use Rattle.tables.specs.Images.{leaf_rows, inner_rows};
ghost use Rattle.build.specs.Discovery.{Ready, Discovered};
ghost use Rattle.build.specs.Refinement.{class_at, Indexed, Classed};
ghost use Rattle.build.specs.Imaging.{Appears, Firsts, Filled, final_byte, leaf_byte, inner_byte, of_states, source_at, Built};

use crate::steps::inner_step;
use machine::Machine;
use slots::Layout;

// The first index of a class.
fn first_of(classes: &[u8], class: u8) -> Option<usize>
    ensures { MatchOption result ((x : ℕ) → x < length classes.now → class_at classes.now x ≡ class → ⊥) (λ i. (i < length classes.now) × (class_at classes.now i ≡ class) × ((x : ℕ) → x < i → class_at classes.now x ≡ class → ⊥)) }
{
    classes.iter().position(|x| *x == class)
}

// The first index of each class. There are at most 32 codes, so the casts fit, which is proved.
pub(crate) fn find_firsts(classes: &[u8], firsts: &mut [u8])
    requires few { length classes.now ≤ 32 }
    requires appears { Appears classes.now (length classes.now) (length firsts.old) }
    ensures { Firsts classes.now (length classes.now) (length firsts.old) firsts.new }
{
    for (s, first) in firsts.iter_mut().enumerate() {
        *first = first_of(classes, s as u8).unwrap() as u8;
    }
}

// The states of a table: the codes found, the class of each, and the first index of each class.
#[derive(Clone, Copy)]
pub(crate) struct States<'a> {
    pub(crate) layout: Layout,
    pub(crate) codes: &'a [u64],
    pub(crate) classes: &'a [u8],
    pub(crate) firsts: &'a [u8],
    pub(crate) ghost room: { length classes.now ≤ layout.most },
    pub(crate) ghost of_codes: { length codes.now ≡ length classes.now },
    pub(crate) ghost of_classes: { Firsts classes.now (length classes.now) (length firsts.now) firsts.now },
}

impl States<'_> {
    // The first index of a state, or none where there is no such state.
    fn first(&self, s: usize) -> Option<usize>
        ensures { MatchOption result (length self.now.firsts.now ≤ s) (λ x. (s < length self.now.firsts.now) × (x < length self.now.classes.now) × (x ≡ slice_index self.now.firsts.now s)) }
    {
        self.firsts.get(s).map(|x| usize::from(*x))
    }

    // Whether each state is final.
    fn put_finals<M: Machine>(&self, machine: &M, finals: &mut [u8])
        ensures { (s : ℕ) → s < length finals.old → slice_index finals.new s ≡ final_byte (M.Machine.meaning machine.now) self.now.codes.now self.now.firsts.now (length self.now.firsts.now) s }
    {
        for (s, cell) in finals.iter_mut().enumerate() {
            let is_final = self
                .first(s)
                .is_some_and(|x| machine.is_final(self.codes[x]));
            *cell = u8::from(is_final);
        }
    }

    // The leaf cells, of indices of codes, made the classes of these.
    fn put_leaves(&self, leaves: &mut [u8])
        requires { (row : ℕ) → row < length leaves.old → slice_index leaves.old row < length self.now.classes.now }
        ensures { (row : ℕ) → row < length leaves.old → slice_index leaves.new row ≡ class_at self.now.classes.now (slice_index leaves.old row) }
    {
        for cell in leaves.iter_mut() {
            *cell = self.classes[usize::from(*cell)];
        }
    }

    // Where the cell of the first indices of an inner cell's states stands, or none where it is not of two states.
    fn source(&self, j: usize) -> Option<usize>
        requires { j < inner_rows self.now.layout.shape * (self.now.layout.most * self.now.layout.most) }
        ensures { MatchOption result (of_states self.now.layout.most (length self.now.firsts.now) j ≡ false) (λ i. (of_states self.now.layout.most (length self.now.firsts.now) j ≡ true) × (i ≡ source_at self.now.layout self.now.firsts.now j)) }
    {
        let n = self.layout.most;
        let left = self.first(j / n % n)?;
        let right = self.first(j % n)?;
        let (label, marks) = inner_step(self.layout, j / (n * n));
        Some(self.layout.inner_address(label, marks, left, right))
    }

    // The cells over states, each from the cell of their first indices; zeros where there are no such states.
    fn put_inners(&self, cells: &mut [u8])
        requires { Indexed self.now.layout (length self.now.classes.now) cells.old }
        ensures { Filled (1 + self.now.layout.most + leaf_rows self.now.layout.shape) (inner_rows self.now.layout.shape * (self.now.layout.most * self.now.layout.most)) (inner_byte self.now.layout (length self.now.firsts.now) cells.old self.now.classes.now self.now.firsts.now) cells.old cells.new }
    {
        let start = 1 + self.layout.most + self.layout.leaf_rows();
        // by index, since a cell is read back from elsewhere in the slice that is written
        for j in 0..self.layout.inner_rows() * (self.layout.most * self.layout.most) {
            cells[start + j] = match self.source(j) {
                Some(from) => self.classes[usize::from(cells[from])],
                None => 0,
            };
        }
    }

    // Makes the cells over indices of codes those over states, with what stands before them.
    pub(crate) fn put_table<M: Machine>(&self, machine: &M, cells: &mut [u8])
        requires ready { Ready (M.Machine.meaning machine.now) self.now.layout self.now.layout.most (length cells.old) }
        requires discovered { Discovered (M.Machine.meaning machine.now) self.now.layout.most (length self.now.classes.now) self.now.codes.now cells.old }
        requires classed { Classed (M.Machine.meaning machine.now) self.now.codes.now self.now.classes.now (length self.now.classes.now) (length self.now.firsts.now) }
        ensures { Built (M.Machine.meaning machine.now) self.now.layout.most (length self.now.firsts.now) cells.new }
    {
        // at most 32, so the cast fits, which is proved
        cells[0] = self.firsts.len() as u8;
        let leaves = 1 + self.layout.most;
        let inners = leaves + self.layout.leaf_rows();
        self.put_finals(machine, &mut cells[1..leaves]);
        self.put_leaves(&mut cells[leaves..inners]);
        self.put_inners(cells);
    }
}
