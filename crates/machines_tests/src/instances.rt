// What the one constructor of related machines, of rules on each node and of products promises of each instance, in that
// instance's own words.
ghost use Rattle.std.specs.Prelude.{◌≡◌, ◌&&◌, ◌||◌, Some, MatchResult};
ghost use Rattle.automata.specs.Rules.{sub, lab, left_of, right_of, below};
ghost use Rattle.atoms.specs.Making.{Makes};
ghost use Rattle.layers.specs.Product.{pair_refusal, product_meaning, MadeBoth, MadeEither};
ghost use Rattle.machines_tests.specs.Instances.{sub_meaning, lab_meaning, left_meaning, right_meaning, below_meaning};

use atoms::{Below, Lab, Left, Right, Sub};
use layers::{Both, Either};
use machine::Machine;
use trees::{Refusal, Shape};

pub fn new_sub(shape: Shape, smaller: usize, larger: usize) -> Result<Sub, Refusal>
    ensures { Makes shape (sub smaller larger) sub_meaning result }
{
    Sub::new(shape, smaller, larger)
}

pub fn new_lab(shape: Shape, track: usize, label: usize) -> Result<Lab, Refusal>
    ensures { Makes shape (lab track label) lab_meaning result }
{
    Lab::new(shape, track, label)
}

pub fn new_left(shape: Shape, upper: usize, lower: usize) -> Result<Left, Refusal>
    ensures { Makes shape (left_of upper lower) left_meaning result }
{
    Left::new(shape, upper, lower)
}

pub fn new_right(shape: Shape, upper: usize, lower: usize) -> Result<Right, Refusal>
    ensures { Makes shape (right_of upper lower) right_meaning result }
{
    Right::new(shape, upper, lower)
}

pub fn new_below(shape: Shape, upper: usize, lower: usize) -> Result<Below, Refusal>
    ensures { Makes shape (below upper lower) below_meaning result }
{
    Below::new(shape, upper, lower)
}

pub fn new_both<A: Machine + Drop, B: Machine + Drop>(
    left: A,
    right: B,
) -> Result<Both<A, B>, Refusal>
    ensures { MatchResult result (λ n. MadeBoth (A.Machine.meaning left) (B.Machine.meaning right) (product_meaning ◌&&◌ A.Machine.meaning B.Machine.meaning n)) (λ e. pair_refusal (A.Machine.meaning left) (B.Machine.meaning right) ≡ Some e) }
{
    Both::new(left, right)
}

pub fn new_either<A: Machine + Drop, B: Machine + Drop>(
    left: A,
    right: B,
) -> Result<Either<A, B>, Refusal>
    ensures { MatchResult result (λ n. MadeEither (A.Machine.meaning left) (B.Machine.meaning right) (product_meaning ◌||◌ A.Machine.meaning B.Machine.meaning n)) (λ e. pair_refusal (A.Machine.meaning left) (B.Machine.meaning right) ≡ Some e) }
{
    Either::new(left, right)
}
