// A rule on each node by itself, whatever stands above and below it.
ghost use Rattle.std.specs.Prelude.{◌≡◌, ℕ, Bool, if◌then◌else◌};
ghost use Rattle.std.proofs.Common.{subst};
ghost use Rattle.trees.specs.declared.shape.Shape.{Shape};
ghost use Rattle.automata.specs.Automata.{Lawful};
ghost use Rattle.automata.specs.Rules as Rules;
ghost use Rattle.automata.specs.Atoms.{every_automaton, atom_automaton};
ghost use Rattle.automata.proofs.AtomAutomata.{atom_lawful};
ghost use Rattle.atoms.specs.Making.{asked, Makes};
ghost use Rattle.atoms.specs.Meanings.{every_meaning};

use crate::atom::Atom;
use machine::{Machine, asks_inner, asks_leaf};
use trees::{Refusal, Shape};

pub trait NodeRule {
    // which labels and marks are bad
    ghost bad: { Self → ℕ → ℕ → Bool };

    // whether none is, so that one code is enough
    ghost trivial: { Self → Bool };

    ghost atom: { Self → Rules.Atom };

    // the atom that two numbers ask for
    ghost asks: { ℕ → ℕ → Rules.Atom };

    ghost means: { (r : Self) (sh : Shape) → atom_automaton sh (atom r) ≡ every_automaton sh (if trivial r then 1 else 2) (bad r) };

    // Two tracks, or a track and a label.
    fn of(first: usize, second: usize) -> Self
        ensures { atom result ≡ asks first second };

    fn atom(&self) -> Atom
        ensures { asked result ≡ atom self.now };

    fn is_bad(&self, label: u8, marks: u8) -> bool
        ensures { result ≡ bad self.now label marks };

    fn is_trivial(&self) -> bool
        ensures { result ≡ trivial self.now };
}

// Code 0 where no node so far is bad, 1 else.
#[derive(Clone, Copy, PartialEq, Eq, Debug)]
pub struct Every<T> {
    shape: Shape,
    rule: T,
}

impl<T: NodeRule + Drop> Every<T> {
    pub fn new(shape: Shape, first: usize, second: usize) -> Result<Every<T>, Refusal>
        ensures { Makes shape (T.NodeRule.asks first second) (every_meaning T.NodeRule.atom) result }
    {
        let rule = T::of(first, second);
        rule.atom().check(shape)?;
        Ok(Every { shape, rule })
    }
}

impl<T: NodeRule> Machine for Every<T> {
    ghost meaning = { λ s. every_automaton s.shape (if T.NodeRule.trivial s.rule then 1 else 2) (T.NodeRule.bad s.rule) };

    ghost lawful = { λ s. subst Lawful (T.NodeRule.means s.rule s.shape) (atom_lawful s.shape (T.NodeRule.atom s.rule)) };

    fn shape(&self) -> Shape {
        self.shape
    }

    fn count(&self) -> u64 {
        if self.rule.is_trivial() { 1 } else { 2 }
    }

    fn leaf(&self, label: u8, marks: u8) -> u64 {
        if !asks_leaf(self.shape, label, marks) {
            return 0;
        }
        u64::from(self.rule.is_bad(label, marks))
    }

    fn inner(&self, label: u8, marks: u8, left: u64, right: u64) -> u64 {
        if !asks_inner(self.shape, self.count(), label, marks, left, right) {
            return 0;
        }
        u64::from(left > 0 || right > 0 || self.rule.is_bad(label, marks))
    }

    fn is_final(&self, code: u64) -> bool {
        code == 0
    }
}
