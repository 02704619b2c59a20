// A shared reference to a machine is that machine.
ghost use Rattle.automata.specs.Automata.{Automaton, Lawful};

use crate::trait_machine::Machine;
use trees::Shape;

impl<'a, M: Machine> Machine for &'a M {
    ghost meaning = { λ s. M.Machine.meaning s.now };

    ghost lawful = { λ s. M.Machine.lawful s.now };

    fn shape(&self) -> Shape {
        (**self).shape()
    }

    fn count(&self) -> u64 {
        (**self).count()
    }

    fn leaf(&self, label: u8, marks: u8) -> u64 {
        (**self).leaf(label, marks)
    }

    fn inner(&self, label: u8, marks: u8, left: u64, right: u64) -> u64 {
        (**self).inner(label, marks, left, right)
    }

    fn is_final(&self, code: u64) -> bool {
        (**self).is_final(code)
    }
}
