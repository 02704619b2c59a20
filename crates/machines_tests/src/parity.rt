// The number of leaves, odd or even: a rule that no atom says, as a machine of another crate.
ghost use Rattle.machines_tests.specs.Parities.{parity_automaton, parity_lawful};

use machine::{Machine, asks_inner, asks_leaf};
use trees::Shape;

#[derive(Clone, Copy)]
pub struct Parity {
    pub shape: Shape,
}

impl Machine for Parity {
    ghost meaning = { λ s. parity_automaton s.shape };

    ghost lawful = { λ s. parity_lawful s.shape };

    fn shape(&self) -> Shape {
        self.shape
    }

    fn count(&self) -> u64 {
        2
    }

    fn leaf(&self, label: u8, marks: u8) -> u64 {
        u64::from(asks_leaf(self.shape, label, marks))
    }

    fn inner(&self, label: u8, marks: u8, left: u64, right: u64) -> u64 {
        if !asks_inner(self.shape, 2, label, marks, left, right) {
            return 0;
        }
        (left + right) % 2
    }

    fn is_final(&self, code: u64) -> bool {
        code == 1
    }
}
