// Sets of codes below 64, each as one number, since a set is itself a code: code k is a member where bit k is set.
ghost use Rattle.std.specs.Prelude.{◌≡◌, ◌^◌, ◌<◌, bit_or};
ghost use Rattle.layers.specs.Sets.{Next};
ghost use Rattle.std.specs.Iterator.{at_most};

// The set of two codes.
pub(crate) fn set_of(one: u64, other: u64) -> u64
    requires { (one < 64) × (other < 64) }
    ensures { result ≡ bit_or (2 ^ one) (2 ^ other) }
{
    1u64 << one | 1u64 << other
}

// The members of a set, least first: each step takes one out, so it costs nothing for the codes that are not there.
#[derive(Clone, Copy)]
pub(crate) struct Members {
    rest: u64,
}

impl Members {
    pub(crate) fn of(set: u64) -> Members
        ensures { result.rest ≡ set }
    {
        Members { rest: set }
    }
}

impl Iterator for Members {
    type Item = u64;

    ghost next_gives = { λ s r t. Next s.rest r t.rest };

    ghost remaining = { λ s. at_most s.rest };

    fn next(&mut self) -> Option<u64> {
        if self.rest == 0 {
            return None;
        }
        let least = self.rest.trailing_zeros();
        self.rest -= 1u64 << least;
        Some(u64::from(least))
    }
}
