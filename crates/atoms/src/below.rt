// Below: the lower track's one node hangs below the upper track's, at any depth.
ghost use Rattle.std.specs.Prelude.{refl};
ghost use Rattle.automata.specs.Rules.{below};
ghost use Rattle.automata.specs.Atoms.{below_step};

use crate::atom::Atom;
use crate::related::{Related, Relation};
use automata::Standing;

#[derive(Clone, Copy, Default, PartialEq, Eq, Debug)]
pub struct Descendant;

pub type Below = Related<Descendant>;

impl Relation for Descendant {
    ghost step = { below_step };

    ghost atom = { below };

    ghost means = { λ _ _ _. refl };

    fn atom(upper: usize, lower: usize) -> Atom {
        Atom::Below(upper, lower)
    }

    fn join(&self, upper: bool, lower: bool, left: Standing, right: Standing) -> Standing {
        let parts = left.beside(right);
        match (upper, lower) {
            (false, false) => parts,
            (false, true) => parts.alone(),
            (true, false) => parts.met(),
            (true, true) => Standing::Dead,
        }
    }
}
