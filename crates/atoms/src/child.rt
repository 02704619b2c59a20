// The one step of the two relations to a child, which are mirror images.
ghost use Rattle.std.specs.Prelude.{◌≡◌};
ghost use Rattle.automata.specs.Atoms.{left_step};

use automata::Standing;

// `near` is the part on the side that the relation names, `far` the other. Left names the left part.
pub fn child_step(upper: bool, lower: bool, near: Standing, far: Standing) -> Standing
    ensures { result ≡ left_step upper lower near far }
{
    match (upper, lower) {
        (false, false) => near.passed().beside(far.passed()),
        (false, true) => near.beside(far).alone(),
        (true, false) => near.beside(far.passed()).met(),
        (true, true) => Standing::Dead,
    }
}
