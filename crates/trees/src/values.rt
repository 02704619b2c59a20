// The fold over a value for each open part.
ghost use Rattle.std.specs.Prelude.{◌≡◌};
ghost use Rattle.trees.specs.Trees.{Tree, leaf, inner};
ghost use Rattle.trees.specs.Parts.{places, Held};

use crate::fold::{Fold, NoRoom};

// What a tree comes to: worked out of a leaf, and of an inner node over what its parts come to.
pub trait Algebra<V> {
    // whether a tree comes to this value
    ghost comes_to: { Self → Tree → V → Type 0 };

    fn leaf(&self, label: u8, marks: u8) -> V
        ensures { comes_to self.now (leaf label marks) result };

    fn inner(&self, label: u8, marks: u8, left: V, right: V) -> V
        ensures { (l r : Tree) → comes_to self.now l left → comes_to self.now r right → comes_to self.now (inner label marks l r) result };
}

// A stack with the value of each open part. Where the newest part is an inner node, the value of its right part is
// left in the place above it. No count of parts stands beside the slice: the reader's is the only one.
#[derive(Drop)]
pub struct Values<'s, A, V> {
    pub algebra: A,
    pub stack: &'s mut [V],
}

impl<V: Copy, A: Algebra<V>> Fold for Values<'_, A, V> {
    ghost room = { λ s. places s.stack.now };

    ghost holds = { λ b s ts. (s.algebra ≡ b.algebra) × Held (λ v t. A.comes_to b.algebra t v) s.stack.now ts };

    fn add_leaf(&mut self, height: usize, label: u8, marks: u8) -> Result<(), NoRoom> {
        // by index: of what is written through `get_mut` a proof would learn the length alone
        if height >= self.stack.len() {
            return Err(NoRoom);
        }
        self.stack[height] = self.algebra.leaf(label, marks);
        Ok(())
    }

    fn add_inner(&mut self, height: usize, label: u8, marks: u8) {
        if height < 2 || height > self.stack.len() {
            return;
        }
        let left = self.stack[height - 2];
        let right = self.stack[height - 1];
        self.stack[height - 2] = self.algebra.inner(label, marks, left, right);
    }
}
