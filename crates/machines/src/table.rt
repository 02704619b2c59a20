// The table in a slot, as a machine that answers whatever the slot's bytes are.
ghost use Rattle.std.specs.Prelude.{◌≡◌, ℕ, ◌+◌, ◌-◌, ◌*◌, ◌^◌, ◌<◌, ◌≤◌, true, false, length, slice_index, MatchOption};
ghost use Rattle.tables.specs.Images.{states_of, kept};
ghost use Rattle.tables.specs.Slots.{answering, slot_automaton as layout_automaton};
ghost use Rattle.tables.specs.SlotLaws.{answering_lawful};
ghost use Rattle.machines.specs.Slots.{slot_automaton};

use crate::limits::Limits;
use machine::{Machine, asks_inner, asks_leaf};
use slots::{Addresses, Layout};
use std::marker::PhantomData;
use trees::Shape;

// The bytes of a slot, and how they are laid out. The table answers where `L` lets shape and `most` through, and is idle
// elsewhere.
#[derive_where(Clone, Copy)]
pub struct SlotBytes<'a, L> {
    pub bytes: &'a [u8],
    pub shape: Shape,
    pub most: usize,
    pub limits: PhantomData<L>,
}

// A table that answers wherever its numbers are small enough for addresses.
pub type Table<'a> = SlotBytes<'a, Addresses>;

// A table that answers where its layout is within its limits.
pub type SlotTable<'a> = SlotBytes<'a, Layout>;

impl<'a, L> SlotBytes<'a, L> {
    pub fn new(bytes: &'a [u8], shape: Shape, most: usize) -> SlotBytes<'a, L>
        ensures bytes { result.bytes ≡ bytes.entry }
        ensures shape { result.shape ≡ shape }
        ensures most { result.most ≡ most }
    {
        SlotBytes {
            bytes,
            shape,
            most,
            limits: PhantomData,
        }
    }

    fn byte(&self, at: usize) -> u8
        ensures { result ≡ slice_index self.now.bytes.now at }
    {
        self.bytes.get(at).copied().unwrap_or(0)
    }

    // Rust has no `From` between `usize` and `u64`, so they are cast, here and below.
    fn states(&self) -> u64
        ensures { result ≡ states_of self.now.most self.now.bytes.now }
    {
        u64::from(self.byte(0)).min(self.most as u64).max(1)
    }

    fn cell(&self, at: usize) -> u64
        ensures { result ≡ kept (states_of self.now.most self.now.bytes.now) (slice_index self.now.bytes.now at) }
    {
        let state = u64::from(self.byte(at));
        if state < self.states() { state } else { 0 }
    }
}

impl<'a, L: Limits> SlotBytes<'a, L> {
    fn addresses(&self) -> Option<Addresses>
        ensures { MatchOption result (L.Limits.serves self.now.shape self.now.most ≡ false) (λ a. (L.Limits.serves self.now.shape self.now.most ≡ true) × ((a.shape ≡ self.now.shape) × (a.most ≡ self.now.most))) }
    {
        L::addresses(self.shape, self.most)
    }
}

impl<'a, L: Limits> Machine for SlotBytes<'a, L> {
    ghost meaning = { λ s. answering (L.Limits.serves s.shape s.most) s.shape s.most s.bytes.now };

    ghost lawful = { λ s. answering_lawful (L.Limits.serves s.shape s.most) s.shape s.most s.bytes.now (L.Limits.few s.shape s.most) };

    fn shape(&self) -> Shape {
        self.shape
    }

    fn count(&self) -> u64 {
        match self.addresses() {
            Some(_) => self.states(),
            None => 1,
        }
    }

    fn leaf(&self, label: u8, marks: u8) -> u64 {
        match self.addresses() {
            Some(at) if asks_leaf(self.shape, label, marks) => self.cell(at.leaf(label, marks)),
            _ => 0,
        }
    }

    fn inner(&self, label: u8, marks: u8, left: u64, right: u64) -> u64 {
        match self.addresses() {
            Some(at) if asks_inner(self.shape, self.states(), label, marks, left, right) => {
                self.cell(at.inner(label, marks, left as usize, right as usize))
            }
            _ => 0,
        }
    }

    fn is_final(&self, code: u64) -> bool {
        self.addresses().is_some() && code < self.states() && self.byte(1 + code as usize) == 1
    }
}

// What a table means, in its own words.
pub fn table_means<'a>(table: &Table<'a>)
    ensures { ⟦<Table<'a> as Machine>⟧.meaning table.now ≡ slot_automaton table.now.shape table.now.most table.now.bytes.now }
{}

// What a slot's table means, in its own words.
pub fn slot_table_means<'a>(table: &SlotTable<'a>)
    ensures { ⟦<SlotTable<'a> as Machine>⟧.meaning table.now ≡ layout_automaton table.now.shape table.now.most table.now.bytes.now }
{}
