// Guards over lent memory: whichever way a function ends, the slice it was lent ends all zeros.
#![tactic(auto)]

ghost use Rattle.std.specs.Prelude.{◌≡◌, length, replicate};

// A number that memory is cleared with. `Default` says what holds of its value, and not which it is; a crate of number
// traits would stand below every other for this one.
pub trait Zero: Copy {
    ghost null: { Self };

    fn zero() -> Self
        ensures { result ≡ null };
}

impl Zero for u8 {
    ghost null = { 0 };

    fn zero() -> u8 {
        0u8
    }
}

impl Zero for u16 {
    ghost null = { 0 };

    fn zero() -> u16 {
        0u16
    }
}

impl Zero for u64 {
    ghost null = { 0 };

    fn zero() -> u64 {
        0u64
    }
}

// A lent slice that is all zeros once the guard is let go. Work goes through `cells`.
pub struct Cleared<'a, T: Zero> {
    pub cells: &'a mut [T],
}

impl<T: Zero> Drop for Cleared<'_, T> {
    fn drop(self)
        ensures { self.exit.0.now ≡ replicate (length self.entry.cells.now) T.Zero.null }
    {
        // not `fill`, which asks a law of `clone` that a type parameter does not give
        let zero = T::zero();
        self.cells.fill_with(move || zero);
        let Cleared { cells: _ } = self;
    }
}
