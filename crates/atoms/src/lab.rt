// Lab: every node of the track has the label.
ghost use Rattle.std.specs.Prelude.{◌≡◌, false, refl};
ghost use Rattle.automata.specs.Rules.{lab};
ghost use Rattle.automata.specs.Atoms.{lab_bad};
ghost use Rattle.atoms.specs.Meanings.{labelled};

use crate::atom::Atom;
use crate::every::{Every, NodeRule};
use crate::marks::has_mark;

// A node of the track has the label.
#[derive(Clone, Copy, PartialEq, Eq, Debug)]
pub struct Labelled {
    track: usize,
    label: usize,
}

pub type Lab = Every<Labelled>;

impl NodeRule for Labelled {
    ghost bad = { λ r. lab_bad r.track r.label };

    ghost trivial = { λ _. false };

    ghost atom = { labelled };

    ghost asks = { lab };

    ghost means = { λ _ _. refl };

    fn of(track: usize, label: usize) -> Labelled {
        Labelled { track, label }
    }

    fn atom(&self) -> Atom {
        Atom::Lab(self.track, self.label)
    }

    fn is_bad(&self, label: u8, marks: u8) -> bool {
        has_mark(marks, self.track) && usize::from(label) != self.label
    }

    fn is_trivial(&self) -> bool {
        false
    }
}
