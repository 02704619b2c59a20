// Right: the lower track's one node is the right child of the upper track's.
ghost use Rattle.std.specs.Prelude.{refl};
ghost use Rattle.automata.specs.Rules.{right_of};
ghost use Rattle.automata.specs.Atoms.{right_step};

use crate::atom::Atom;
use crate::child::child_step;
use crate::related::{Related, Relation};
use automata::Standing;

#[derive(Clone, Copy, Default, PartialEq, Eq, Debug)]
pub struct RightChild;

pub type Right = Related<RightChild>;

impl Relation for RightChild {
    ghost step = { right_step };

    ghost atom = { right_of };

    ghost means = { λ _ _ _. refl };

    fn atom(upper: usize, lower: usize) -> Atom {
        Atom::Right(upper, lower)
    }

    fn join(&self, upper: bool, lower: bool, left: Standing, right: Standing) -> Standing {
        child_step(upper, lower, right, left)
    }
}
