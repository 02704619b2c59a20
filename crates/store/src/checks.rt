// The checks that calls share, in their order.
ghost use Rattle.racks.specs.Racks.{is_taken};
ghost use Rattle.store.specs.Checks.{Checked, check_slots, check_fulls, full_chain, ready_chain, IsSlot, IsReady};
ghost use Rattle.std.specs.Prelude.{◌<◌, All, ⊤};

use crate::slot::{Slot, Slots};
use racks::Rack;
use trees::Refusal;

// For a call that reads or empties a slot.
pub fn filled<'a>(rack: Rack, store: &'a [u8], number: usize) -> Result<Slot<'a>, Refusal>
    ensures { Checked (full_chain rack store.now number) (IsSlot rack store.now number) result }
{
    let slot = Slots::open(rack, store)?.find(number)?;
    slot.full()?;
    Ok(slot)
}

// Apart from `each_full`: this loop finds out that the slots exist, which that one asks.
fn each_exists(slots: Slots<'_>, numbers: &[usize]) -> Result<(), Refusal>
    ensures { Checked (check_slots slots.entry.rack numbers.now) (λ _. All (λ k. k < slots.entry.rack.slots) numbers.now) result }
{
    for number in numbers {
        slots.find(*number)?;
    }
    Ok(())
}

fn each_full(slots: Slots<'_>, numbers: &[usize]) -> Result<(), Refusal>
    requires { All (λ k. k < slots.rack.slots) numbers.now }
    ensures { Checked (check_fulls (is_taken slots.entry.rack slots.entry.store.now) numbers.now) (λ _. ⊤) result }
{
    for number in numbers {
        slots.slot(*number).full()?;
    }
    Ok(())
}

// For a call that fills a slot from others.
pub fn ready<'a>(
    rack: Rack,
    store: &'a [u8],
    res: usize,
    sources: &[usize],
) -> Result<Slots<'a>, Refusal>
    ensures { Checked (ready_chain rack store.now res sources.now) (IsReady rack store.now res sources.now) result }
{
    let slots = Slots::open(rack, store)?;
    let slot = slots.find(res)?;
    each_exists(slots, sources)?;
    slot.free()?;
    each_full(slots, sources)?;
    Ok(slots)
}
