// Complement: what the machine below does not accept.
ghost use Rattle.automata.proofs.Products.{not_lawful};
ghost use Rattle.layers.specs.Complement.{not_meaning, MadeNot};

use machine::Machine;
use trees::Shape;

#[derive_where(Clone, Copy, PartialEq, Eq, Debug; M)]
pub struct Not<M> {
    of: M,
}

impl<M: Machine> Not<M> {
    // Refuses nothing.
    pub fn new(of: M) -> Not<M>
        ensures { MadeNot (M.Machine.meaning of) (not_meaning M.Machine.meaning result) }
    {
        Not { of }
    }
}

impl<M: Machine> Machine for Not<M> {
    ghost meaning = { not_meaning M.Machine.meaning };

    ghost lawful = { λ s. not_lawful (M.Machine.meaning s.of) (M.Machine.lawful s.of) };

    fn shape(&self) -> Shape {
        self.of.shape()
    }

    fn count(&self) -> u64 {
        self.of.count()
    }

    fn leaf(&self, label: u8, marks: u8) -> u64 {
        self.of.leaf(label, marks)
    }

    fn inner(&self, label: u8, marks: u8, left: u64, right: u64) -> u64 {
        self.of.inner(label, marks, left, right)
    }

    // A code outside the count is no tree's, and not final here either.
    fn is_final(&self, code: u64) -> bool {
        code < self.of.count() && !self.of.is_final(code)
    }
}
