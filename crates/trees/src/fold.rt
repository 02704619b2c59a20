// What a reading folds a tree into.
ghost use Rattle.std.specs.Prelude.{◌≡◌, ℕ, ◌+◌, Bool, List, ◌∷◌, length, is_ok, OnOk};
ghost use Rattle.trees.specs.Trees.{Tree, leaf, inner};

// There is no free place for one more part.
#[derive(Clone, Copy, PartialEq, Eq, Debug)]
pub struct NoRoom;

// A stack of open parts, in memory that its maker was lent. The reader says how many parts are open. Label and marks
// stand apart, as in a tree's constructors: each node is taken apart at once, so a struct of both would only be unpacked.
// That `room` stays is said of each step, as a type cannot compare two moments.
pub trait Fold {
    // whether there is a free place for one more part, by the number of open parts
    ghost room: { Self → ℕ → Bool };

    // what it is for the second, which began as the first, to hold these open parts, the newest first
    ghost holds: { Self → Self → List Tree → Type 0 };

    // Puts a leaf on top of `height` open parts, where there is a free place.
    fn add_leaf(&mut self, height: usize, label: u8, marks: u8) -> Result<(), NoRoom>
        ensures free { is_ok result ≡ room self.old height }
        ensures same { room self.new ≡ room self.old }
        ensures made { OnOk result ((s : Self) (ts : List Tree) → length ts ≡ height → holds s self.old ts → holds s self.new (leaf label marks ∷ ts)) };

    // Puts an inner node in the place of the newest two of `height` open parts.
    fn add_inner(&mut self, height: usize, label: u8, marks: u8)
        ensures same { room self.new ≡ room self.old }
        ensures made { (s : Self) (l r : Tree) (ts : List Tree) → length ts + 2 ≡ height → holds s self.old (r ∷ l ∷ ts) → holds s self.new (inner label marks l r ∷ ts) };
}
