// Refusals to make a machine.
ghost use Rattle.std.specs.Prelude.{◌≡◌, None};
ghost use Rattle.trees.specs.Reading.{check, outcome};
ghost use Rattle.machine.specs.Making.{refusal};

use trees::{Origin, Reason, Refusal};

// A reason alone does not make a refusal, so there is no `From`: other layers have the same reasons with other origins. One
// constructor for all would take the origin at each call, where a layer names its own once.
pub fn refused(reason: Reason) -> Refusal
    ensures { result ≡ refusal reason }
{
    Refusal {
        reason,
        place: 0,
        origin: Origin::Machines,
    }
}

// Refuses where the test fails.
pub fn check(passed: bool, reason: Reason) -> Result<(), Refusal>
    ensures { result ≡ outcome (check passed (refusal reason) None) }
{
    if passed { Ok(()) } else { Err(refused(reason)) }
}
