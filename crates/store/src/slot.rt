// The slots of a store, and the bytes of a slot: as a machine, put, and cleared.
ghost use Rattle.std.specs.Prelude.{◌≡◌, ℕ, ◌+◌, ◌*◌, ◌<◌, ◌≤◌, true, false, length, take, replicate, MatchOption, ⊤};
ghost use Rattle.tables.specs.Slots.{slot_automaton};
ghost use Rattle.racks.specs.Racks.{rack_fits, slot_bytes, slot, is_taken, slot_machine};
ghost use Rattle.racks.specs.Calls.{check_open, check_slot, check_free, check_full};

use crate::refusal::refused;
use machines::SlotTable;
use racks::Rack;
use slots::Layout;
use trees::{Reason, Refusal};

const FEWEST_CODES: usize = 4;

const MOST_SLOTS: usize = 16;

// The layout of a rack's slots, where the rack is within its limits.
fn layout(rack: Rack) -> Option<Layout>
    ensures { MatchOption result (rack_fits rack ≡ false) (λ l. (rack_fits rack ≡ true) × ((l.shape ≡ rack.shape) × (l.most ≡ rack.most))) }
{
    if rack.most < FEWEST_CODES || rack.slots < 1 || rack.slots > MOST_SLOTS {
        return None;
    }
    Layout::new(rack.shape, rack.most)
}

// The slots of a rack in a store that has them all.
#[derive(Clone, Copy)]
pub struct Slots<'a> {
    pub rack: Rack,
    pub width: usize,
    pub store: &'a [u8],
    pub ghost fits: { rack_fits rack ≡ true },
    pub ghost is: { width ≡ slot_bytes rack },
    pub ghost room: { rack.slots * width ≤ length store.now },
}

impl<'a> Slots<'a> {
    ghost use Rattle.store.specs.Checks.{Checked, IsSlots, IsSlot};

    // The slots, where the rack is within its limits and the store has them all.
    pub fn open(rack: Rack, store: &'a [u8]) -> Result<Slots<'a>, Refusal>
        ensures { Checked (check_open rack store.now) (IsSlots rack store.now) result }
    {
        let Some(layout) = layout(rack) else {
            return Err(refused(Reason::OutsideLimits));
        };
        let width = layout.width();
        if store.len() < rack.slots * width {
            return Err(refused(Reason::StoreTooShort));
        }
        Ok(Slots { rack, width, store })
    }

    // The slot of a number below the rack's.
    pub fn slot(self, number: usize) -> Slot<'a>
        requires { number < self.rack.slots }
        ensures { IsSlot self.entry.rack self.entry.store.now number result }
    {
        Slot {
            slots: self,
            number,
        }
    }

    // The slot of a number, where there is one.
    pub fn find(self, number: usize) -> Result<Slot<'a>, Refusal>
        ensures { Checked (check_slot self.entry.rack number) (IsSlot self.entry.rack self.entry.store.now number) result }
    {
        if number < self.rack.slots {
            Ok(self.slot(number))
        } else {
            Err(refused(Reason::NoSuchSlot))
        }
    }
}

// One slot of them.
#[derive(Clone, Copy)]
pub struct Slot<'a> {
    pub slots: Slots<'a>,
    pub number: usize,
    pub ghost there: { number < slots.rack.slots },
}

impl<'a> Slot<'a> {
    ghost use Rattle.store.specs.Checks.{Checked, IsPlace};

    pub fn place(self) -> Place
        ensures { IsPlace self.entry result }
    {
        let width = self.slots.width;
        Place {
            start: self.number * width,
            width,
        }
    }

    // How many states the slot's table has, where there is one.
    fn states(self) -> Option<u8>
        ensures { MatchOption result (is_taken self.entry.slots.rack self.entry.slots.store.now self.entry.number ≡ false) (λ _. is_taken self.entry.slots.rack self.entry.slots.store.now self.entry.number ≡ true) }
    {
        let states = self.slots.store[self.place().start];
        if states > 0 { Some(states) } else { None }
    }

    // Refuses a slot that holds a table.
    pub fn free(self) -> Result<(), Refusal>
        ensures { Checked (check_free (is_taken self.entry.slots.rack self.entry.slots.store.now) self.entry.number) (λ _. ⊤) result }
    {
        let None = self.states() else {
            return Err(refused(Reason::SlotTaken));
        };
        Ok(())
    }

    // Refuses a slot that holds none.
    pub fn full(self) -> Result<(), Refusal>
        ensures { Checked (check_full (is_taken self.entry.slots.rack self.entry.slots.store.now) self.entry.number) (λ _. ⊤) result }
    {
        let Some(_) = self.states() else {
            return Err(refused(Reason::SlotEmpty));
        };
        Ok(())
    }

    pub fn bytes(self) -> &'a [u8]
        ensures { result.now ≡ slot self.entry.slots.rack self.entry.slots.store.now self.entry.number }
    {
        let place = self.place();
        &self.slots.store[place.start..place.start + place.width]
    }

    pub fn machine(self) -> SlotTable<'a>
        ensures { slot_automaton result.shape result.most result.bytes.now ≡ slot_machine self.entry.slots.rack self.entry.slots.store.now self.entry.number }
    {
        let rack = self.slots.rack;
        SlotTable::new(self.bytes(), rack.shape, rack.most)
    }
}

// Where a slot stands in its store.
#[derive(Clone, Copy)]
pub struct Place {
    pub start: usize,
    pub width: usize,
}

impl Place {
    ghost use Rattle.store.specs.Checks.{put_place};

    // Puts the first bytes in the slot.
    pub fn put(self, store: &mut [u8], bytes: &[u8])
        requires room { self.start + self.width ≤ length store.old }
        requires whole { self.width ≤ length bytes.now }
        ensures { store.new ≡ put_place self (take self.width bytes.now) store.old }
    {
        let width = self.width;
        store[self.start..self.start + width].copy_from_slice(&bytes[..width]);
    }

    // Zeroes the slot.
    pub fn clear(self, store: &mut [u8])
        requires { self.start + self.width ≤ length store.old }
        ensures { store.new ≡ put_place self (replicate self.width 0) store.old }
    {
        store[self.start..self.start + self.width].fill(0);
    }
}
