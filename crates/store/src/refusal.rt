// Refusals that arise in the rack.
ghost use Rattle.std.specs.Prelude.{◌≡◌};
ghost use Rattle.racks.specs.Calls.{by_rack};

use trees::{Origin, Reason, Refusal};

// One for each layer, as one for all would take the origin at each call.
pub fn refused(reason: Reason) -> Refusal
    ensures { result ≡ by_rack reason }
{
    Refusal {
        reason,
        place: 0,
        origin: Origin::Rack,
    }
}
