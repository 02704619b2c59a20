// The atom that a constructor is asked for, and the checks that it has to pass.
ghost use Rattle.std.specs.Prelude.{◌≡◌};
ghost use Rattle.automata.specs.Atoms.{atom_automaton};
ghost use Rattle.atoms.specs.Making.{asked, tracks_fit, label_fits, Makes};

use machine::check;
use trees::{Reason, Refusal, Shape};

// Over tracks, and for `Lab` a track and a label.
#[derive(Clone, Copy, PartialEq, Eq, Debug)]
pub enum Atom {
    Sub(usize, usize),
    Lab(usize, usize),
    Sing(usize),
    Left(usize, usize),
    Right(usize, usize),
    Below(usize, usize),
}

impl Atom {
    fn tracks_fit(self, shape: Shape) -> bool
        ensures { result ≡ tracks_fit shape (asked self) }
    {
        let highest = match self {
            Atom::Lab(i, _) | Atom::Sing(i) => i,
            Atom::Sub(i, j) | Atom::Left(i, j) | Atom::Right(i, j) | Atom::Below(i, j) => i.max(j),
        };
        highest < usize::from(shape.tracks)
    }

    fn label_fits(self, shape: Shape) -> bool
        ensures { result ≡ label_fits shape (asked self) }
    {
        match self {
            Atom::Lab(_, label) => label < usize::from(shape.leaves) + usize::from(shape.inners),
            _ => true,
        }
    }

    // Where no refusal is due, the automaton of the atom is all that a made machine has to be.
    pub(crate) fn check(self, shape: Shape) -> Result<(), Refusal>
        ensures { Makes shape (asked self) (λ _. atom_automaton shape (asked self)) result }
    {
        let limited = Shape::new(
            usize::from(shape.leaves),
            usize::from(shape.inners),
            usize::from(shape.tracks),
        );
        check(limited.is_some(), Reason::OutsideLimits)?;
        check(self.tracks_fit(shape), Reason::NoSuchTrack)?;
        check(self.label_fits(shape), Reason::NoSuchLabel)?;
        Ok(())
    }
}
