// Sets of numbers below 64: a number is a member where its bit is set. They are copied and compared at every step, where a
// `BTreeSet` would be made anew.
ghost use Rattle.std.specs.Iterator.{at_most};

use std::ops::{BitOr, BitOrAssign};

#[derive(Clone, Copy, PartialEq, Eq)]
pub struct BitSet {
    bits: u64,
}

impl BitSet {
    pub const EMPTY: BitSet = BitSet { bits: 0 };

    pub fn only(member: u64) -> BitSet {
        BitSet {
            bits: 1 << (member % 64),
        }
    }

    pub fn len(self) -> usize {
        // Rust has no `From` between `u32` and `usize`
        self.bits.count_ones() as usize
    }

    pub fn is_within(self, other: BitSet) -> bool {
        self.bits & other.bits == self.bits
    }

    pub fn has(self, member: u64) -> bool {
        BitSet::only(member).is_within(self)
    }
}

impl From<u64> for BitSet {
    fn from(bits: u64) -> BitSet {
        BitSet { bits }
    }
}

impl BitOr for BitSet {
    type Output = BitSet;

    fn bitor(self, other: BitSet) -> BitSet {
        BitSet {
            bits: self.bits | other.bits,
        }
    }
}

impl BitOrAssign for BitSet {
    fn bitor_assign(&mut self, other: BitSet) {
        self.bits |= other.bits;
    }
}

impl IntoIterator for BitSet {
    type Item = u64;

    type IntoIter = Members;

    fn into_iter(self) -> Members {
        Members { left: self.bits }
    }
}

// The members that are left, the least first.
#[derive(Clone, Copy)]
pub struct Members {
    left: u64,
}

impl Iterator for Members {
    type Item = u64;

    ghost remaining = { λ s. at_most s.left };

    fn next(&mut self) -> Option<u64> {
        if self.left == 0 {
            return None;
        }
        let least = self.left.trailing_zeros();
        self.left &= self.left - 1;
        Some(u64::from(least))
    }
}
