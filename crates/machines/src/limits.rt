// Which tables answer: those whose shape and number of states a test lets through.
ghost use Rattle.std.specs.Prelude.{◌≡◌, ℕ, ◌≤◌, Bool, true, false, MatchOption};
ghost use Rattle.trees.specs.declared.shape.Shape.{Shape};
ghost use Rattle.tables.specs.Images.{fits};
ghost use Rattle.tables.specs.SlotLaws.{fits_few};
ghost use Rattle.slots.specs.Sizes.{sized, sized_few};

use slots::{Addresses, Layout};
use trees::Shape;

pub trait Limits {
    // the test
    ghost serves: { Shape → ℕ → Bool };

    // codes stay few, as a lawful machine's must
    ghost few: { (sh : Shape) (N : ℕ) → serves sh N ≡ true → N ≤ 32 };

    // Where the cells stand, or none where the table answers nothing.
    fn addresses(shape: Shape, most: usize) -> Option<Addresses>
        ensures { MatchOption result (serves shape most ≡ false) (λ a. (serves shape most ≡ true) × ((a.shape ≡ shape) × (a.most ≡ most))) };
}

// Numbers small enough for addresses.
impl Limits for Addresses {
    ghost serves = { sized };

    ghost few = { sized_few };

    fn addresses(shape: Shape, most: usize) -> Option<Addresses> {
        Addresses::new(shape, most)
    }
}

// A shape within its limits, too.
impl Limits for Layout {
    ghost serves = { fits };

    ghost few = { fits_few };

    fn addresses(shape: Shape, most: usize) -> Option<Addresses> {
        Some(Layout::new(shape, most)?.addresses())
    }
}
