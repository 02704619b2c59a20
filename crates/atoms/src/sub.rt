// Sub: every node of one track is in the other.
ghost use Rattle.std.specs.Prelude.{◌≡◌, ◌==◌, refl};
ghost use Rattle.automata.specs.Rules.{sub};
ghost use Rattle.automata.specs.Atoms.{sub_bad};
ghost use Rattle.atoms.specs.Meanings.{inclusion};

use crate::atom::Atom;
use crate::every::{Every, NodeRule};
use crate::marks::has_mark;

// A node of the smaller track is in the larger one.
#[derive(Clone, Copy, PartialEq, Eq, Debug)]
pub struct Inclusion {
    smaller: usize,
    larger: usize,
}

pub type Sub = Every<Inclusion>;

impl NodeRule for Inclusion {
    ghost bad = { λ r. sub_bad r.smaller r.larger };

    ghost trivial = { λ r. (r.smaller == r.larger) };

    ghost atom = { inclusion };

    ghost asks = { sub };

    ghost means = { λ _ _. refl };

    fn of(smaller: usize, larger: usize) -> Inclusion {
        Inclusion { smaller, larger }
    }

    fn atom(&self) -> Atom {
        Atom::Sub(self.smaller, self.larger)
    }

    fn is_bad(&self, _label: u8, marks: u8) -> bool {
        has_mark(marks, self.smaller) && !has_mark(marks, self.larger)
    }

    fn is_trivial(&self) -> bool {
        self.smaller == self.larger
    }
}
