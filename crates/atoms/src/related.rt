// A relation between the one node of an upper track and the one node of a lower.
ghost use Rattle.std.specs.Prelude.{◌≡◌, ℕ};
ghost use Rattle.std.proofs.Common.{subst};
ghost use Rattle.trees.specs.declared.shape.Shape.{Shape};
ghost use Rattle.automata.specs.Automata.{Lawful};
ghost use Rattle.automata.specs.Rules as Rules;
ghost use Rattle.automata.specs.Atoms.{Step, ones_automaton, atom_automaton};
ghost use Rattle.automata.proofs.AtomAutomata.{atom_lawful};
ghost use Rattle.atoms.specs.Making.{asked, Makes};
ghost use Rattle.atoms.specs.Meanings.{related_meaning};

use crate::atom::Atom;
use crate::marks::has_mark;
use automata::Standing;
use machine::{Machine, asks_inner, asks_leaf};
use trees::{Refusal, Shape};

pub trait Relation {
    ghost step: { Step };

    ghost atom: { ℕ → ℕ → Rules.Atom };

    ghost means: { (sh : Shape) (i j : ℕ) → atom_automaton sh (atom i j) ≡ ones_automaton step sh i j };

    fn atom(upper: usize, lower: usize) -> Atom
        ensures { asked result ≡ atom upper lower };

    // What two parts make under a node that is in these tracks.
    fn join(&self, upper: bool, lower: bool, left: Standing, right: Standing) -> Standing
        ensures { result ≡ step upper lower left right };
}

// No relation holds where the tracks are one, and code 0 is then the only one.
#[derive(Clone, Copy, PartialEq, Eq, Debug)]
pub struct Related<R> {
    shape: Shape,
    relation: R,
    upper: usize,
    lower: usize,
}

impl<R: Relation + Default> Related<R> {
    pub fn new(shape: Shape, upper: usize, lower: usize) -> Result<Related<R>, Refusal>
        ensures { Makes shape (R.Relation.atom upper lower) (related_meaning R.Relation.atom) result }
    {
        R::atom(upper, lower).check(shape)?;
        Ok(Related {
            shape,
            relation: R::default(),
            upper,
            lower,
        })
    }
}

impl<R: Relation> Machine for Related<R> {
    ghost meaning = { λ s. ones_automaton R.Relation.step s.shape s.upper s.lower };

    ghost lawful = { λ s. subst Lawful (R.Relation.means s.shape s.upper s.lower) (atom_lawful s.shape (R.Relation.atom s.upper s.lower)) };

    fn shape(&self) -> Shape {
        self.shape
    }

    fn count(&self) -> u64 {
        if self.upper == self.lower { 1 } else { 4 }
    }

    fn leaf(&self, label: u8, marks: u8) -> u64 {
        if !asks_leaf(self.shape, label, marks) || self.upper == self.lower {
            return 0;
        }
        let part = Standing::of_leaf(has_mark(marks, self.upper), has_mark(marks, self.lower));
        part.number(self.upper < self.lower)
    }

    fn inner(&self, label: u8, marks: u8, left: u64, right: u64) -> u64 {
        if !asks_inner(self.shape, self.count(), label, marks, left, right)
            || self.upper == self.lower
        {
            return 0;
        }
        let upper_first = self.upper < self.lower;
        let part = self.relation.join(
            has_mark(marks, self.upper),
            has_mark(marks, self.lower),
            Standing::of_number(upper_first, left),
            Standing::of_number(upper_first, right),
        );
        part.number(upper_first)
    }

    // 3 is the number of `Done`, whichever track is first.
    fn is_final(&self, code: u64) -> bool {
        self.upper != self.lower && code == 3
    }
}
