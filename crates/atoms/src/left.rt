// Left: the lower track's one node is the left child of the upper track's.
ghost use Rattle.std.specs.Prelude.{refl};
ghost use Rattle.automata.specs.Rules.{left_of};
ghost use Rattle.automata.specs.Atoms.{left_step};

use crate::atom::Atom;
use crate::child::child_step;
use crate::related::{Related, Relation};
use automata::Standing;

#[derive(Clone, Copy, Default, PartialEq, Eq, Debug)]
pub struct LeftChild;

pub type Left = Related<LeftChild>;

impl Relation for LeftChild {
    ghost step = { left_step };

    ghost atom = { left_of };

    ghost means = { λ _ _ _. refl };

    fn atom(upper: usize, lower: usize) -> Atom {
        Atom::Left(upper, lower)
    }

    fn join(&self, upper: bool, lower: bool, left: Standing, right: Standing) -> Standing {
        child_step(upper, lower, left, right)
    }
}
