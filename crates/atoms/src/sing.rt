// Sing: exactly one node is in the track.
ghost use Rattle.automata.specs.Rules.{sing};
ghost use Rattle.automata.proofs.AtomAutomata.{atom_lawful};
ghost use Rattle.atoms.specs.Making.{Makes};
ghost use Rattle.atoms.specs.Meanings.{sing_meaning};

use crate::atom::Atom;
use crate::marks::has_mark;
use machine::{Machine, asks_inner, asks_leaf};
use trees::{Refusal, Shape};

// Code 0 for no node of the track so far, 1 for one, 2 for more.
#[derive(Clone, Copy, PartialEq, Eq, Debug)]
pub struct Sing {
    shape: Shape,
    track: usize,
}

impl Sing {
    const CODES: u64 = 3;

    pub fn new(shape: Shape, track: usize) -> Result<Sing, Refusal>
        ensures { Makes shape (sing track) sing_meaning result }
    {
        Atom::Sing(track).check(shape)?;
        Ok(Sing { shape, track })
    }
}

impl Machine for Sing {
    ghost meaning = { sing_meaning };

    ghost lawful = { λ s. atom_lawful s.shape (sing s.track) };

    fn shape(&self) -> Shape {
        self.shape
    }

    fn count(&self) -> u64 {
        Self::CODES
    }

    fn leaf(&self, label: u8, marks: u8) -> u64 {
        if !asks_leaf(self.shape, label, marks) {
            return 0;
        }
        u64::from(has_mark(marks, self.track))
    }

    fn inner(&self, label: u8, marks: u8, left: u64, right: u64) -> u64 {
        if !asks_inner(self.shape, Self::CODES, label, marks, left, right) {
            return 0;
        }
        (u64::from(has_mark(marks, self.track)) + left + right).min(2)
    }

    fn is_final(&self, code: u64) -> bool {
        code == 1
    }
}
