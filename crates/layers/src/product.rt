// Product: two machines side by side, their finals joined by a connective.
ghost use Rattle.std.specs.Prelude.{◌≡◌, ◌+◌, ◌*◌, ◌^◌, ◌<◌, Bool, ◌&&◌, ◌||◌, T, ◌⊎◌, ◌↔◌, if◌then◌else◌, Some, None, MatchResult, nat_le};
ghost use Rattle.automata.proofs.Tests.{and_iff, or_iff};
ghost use Rattle.layers.specs.Product.{same_shape, pair_counts, pair_refusal, product_meaning, pair_meaning_lawful, MadePair, MadeJoined};

use machine::{Machine, asks_inner, asks_leaf, check, refused};
use trees::{Reason, Refusal, Shape};

// The most codes that a machine may have.
const MOST_CODES: u64 = 0x1_0000_0000;

// How two machines' finals make one.
pub trait Connective {
    ghost op: { Bool → Bool → Bool };

    fn join(&self, left: bool, right: bool) -> bool
        ensures { result ≡ op left right };
}

// A connective that a connective of statements stands for. It is asked for where a product is said to accept by it.
pub trait Logical: Connective {
    // what it makes of two statements
    ghost joins: { Type 0 → Type 0 → Type 0 };

    ghost joined: { (a b : Bool) → T (Self.op a b) ↔ joins (T a) (T b) };
}

#[derive(Clone, Copy, Default, PartialEq, Eq, Debug)]
pub struct And;

#[derive(Clone, Copy, Default, PartialEq, Eq, Debug)]
pub struct Or;

impl Connective for And {
    ghost op = { ◌&&◌ };

    fn join(&self, left: bool, right: bool) -> bool {
        left && right
    }
}

impl Logical for And {
    ghost joins = { λ P Q. P × Q };

    ghost joined = { and_iff };
}

impl Connective for Or {
    ghost op = { ◌||◌ };

    fn join(&self, left: bool, right: bool) -> bool {
        left || right
    }
}

impl Logical for Or {
    ghost joins = { λ P Q. P ⊎ Q };

    ghost joined = { or_iff };
}

// The code of a pair is the left code times the count of the right machine, plus the right code.
#[derive_where(Clone, Copy, PartialEq, Eq, Debug; C, A, B)]
pub struct Product<C, A, B> {
    connective: C,
    left: A,
    right: B,
}

pub type Both<A, B> = Product<And, A, B>;

pub type Either<A, B> = Product<Or, A, B>;

// How many codes two machines of so many codes have side by side, where those are not too many.
fn codes(left: u64, right: u64) -> Option<u64>
    ensures { result ≡ (if nat_le (left * right) (2 ^ 32) then Some (left * right) else None) }
{
    left.checked_mul(right).filter(|codes| *codes <= MOST_CODES)
}

// Whether two machines are over the same trees.
pub fn same_shape(left: Shape, right: Shape) -> bool
    ensures { result ≡ same_shape left right }
{
    left == right
}

// The code of a pair, where the right machine has `width` codes.
fn paired(left: u64, right: u64, width: u64) -> u64
    requires { left * width + right < 2 ^ 64 }
    ensures { result ≡ left * width + right }
{
    left * width + right
}

impl<C: Connective + Drop, A: Machine + Drop, B: Machine + Drop> Product<C, A, B> {
    // Refuses machines of different shapes, then those whose pairs are too many.
    pub fn of(connective: C, left: A, right: B) -> Result<Product<C, A, B>, Refusal>
        ensures { MatchResult result (λ n. MadePair C.Connective.op (A.Machine.meaning left) (B.Machine.meaning right) (product_meaning C.Connective.op A.Machine.meaning B.Machine.meaning n)) (λ e. pair_refusal (A.Machine.meaning left) (B.Machine.meaning right) ≡ Some e) }
    {
        let same = same_shape(left.shape(), right.shape());
        check(same, Reason::ShapesDiffer)?;
        codes(left.count(), right.count()).ok_or(refused(Reason::CountTooLarge))?;
        Ok(Product {
            connective,
            left,
            right,
        })
    }
}

impl<C: Logical + Default + Drop, A: Machine + Drop, B: Machine + Drop> Product<C, A, B> {
    pub fn new(left: A, right: B) -> Result<Product<C, A, B>, Refusal>
        ensures { MatchResult result (λ n. MadeJoined C.Connective.op C.Logical.joins (A.Machine.meaning left) (B.Machine.meaning right) (product_meaning C.Connective.op A.Machine.meaning B.Machine.meaning n)) (λ e. pair_refusal (A.Machine.meaning left) (B.Machine.meaning right) ≡ Some e) }
    {
        Product::of(C::default(), left, right)
    }
}

impl<C: Connective, A: Machine, B: Machine> Product<C, A, B> {
    // The count of the pairs and of the right machine's codes. None where the pairs are too many: `of` makes no such
    // product, and it stands idle.
    fn counts(&self) -> Option<(u64, u64)>
        ensures { result ≡ pair_counts (A.Machine.meaning self.now.left) (B.Machine.meaning self.now.right) }
    {
        let width = self.right.count();
        let codes = codes(self.left.count(), width)?;
        Some((codes, width))
    }
}

impl<C: Connective, A: Machine, B: Machine> Machine for Product<C, A, B> {
    ghost meaning = { product_meaning C.Connective.op A.Machine.meaning B.Machine.meaning };

    ghost lawful = { λ s. pair_meaning_lawful C.Connective.op (A.Machine.meaning s.left) (B.Machine.meaning s.right) (A.Machine.lawful s.left) (B.Machine.lawful s.right) };

    fn shape(&self) -> Shape {
        self.left.shape()
    }

    fn count(&self) -> u64 {
        self.counts().map_or(1, |(codes, _)| codes)
    }

    fn leaf(&self, label: u8, marks: u8) -> u64 {
        let Some((_, width)) = self.counts() else {
            return 0;
        };
        if !asks_leaf(self.left.shape(), label, marks) {
            return 0;
        }
        paired(
            self.left.leaf(label, marks),
            self.right.leaf(label, marks),
            width,
        )
    }

    fn inner(&self, label: u8, marks: u8, left: u64, right: u64) -> u64 {
        let Some((codes, width)) = self.counts() else {
            return 0;
        };
        if !asks_inner(self.left.shape(), codes, label, marks, left, right) {
            return 0;
        }
        paired(
            self.left.inner(label, marks, left / width, right / width),
            self.right.inner(label, marks, left % width, right % width),
            width,
        )
    }

    fn is_final(&self, code: u64) -> bool {
        let Some((codes, width)) = self.counts() else {
            return false;
        };
        code < codes
            && self.connective.join(
                self.left.is_final(code / width),
                self.right.is_final(code % width),
            )
    }
}
