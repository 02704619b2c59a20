// The calls, each with its checks and its machine.
ghost use Rattle.std.specs.Prelude.{◌≡◌, ◌<◌, ℕ, MatchResult, refl};
ghost use Rattle.automata.specs.Layers.{pair_layer};
ghost use Rattle.atoms.specs.Making.{asked};
ghost use Rattle.layers.specs.Product.{product_meaning};
ghost use Rattle.racks.specs.Racks.{slot_machine};
ghost use Rattle.racks.specs.Calls.{Lent, Call, call_atom, call_not, call_both, call_either, call_some, call_take};
ghost use Rattle.racks.specs.Promises.{lent_by};
ghost use Rattle.filling.specs.Fillings.{table_meaning, CallsPair};

use crate::builds::{build_atom, build_in};
use crate::filling::Filling;
use atoms::Atom;
use layers::{And, Connective, Exists, Not, Or, Product, same_shape};
use machine::Machine;
use machines::SlotTable;
use racks::{Rack, Working};
use store::{Place, Slots, ready, refused};
use trees::{Reason, Refusal};

impl Filling for Atom {
    ghost call = { λ a k l. call_atom k (asked a) l };

    fn build(
        &self,
        rack: Rack,
        store: &[u8],
        res: usize,
        working: &mut Working<'_>,
    ) -> Result<Place, Refusal> {
        let slots = ready(rack, store, res, &[])?;
        build_atom(slots.slot(res), *self, working)
    }
}

// The complement of a slot's table.
#[derive(Clone, Copy)]
pub(crate) struct Complement {
    pub(crate) source: usize,
}

impl Filling for Complement {
    ghost call = { λ c k l. call_not k c.source l };

    fn build(
        &self,
        rack: Rack,
        store: &[u8],
        res: usize,
        working: &mut Working<'_>,
    ) -> Result<Place, Refusal> {
        let slots = ready(rack, store, res, &[self.source])?;
        let machine = Not::new(slots.slot(self.source).machine());
        build_in(slots.slot(res), &machine, working)
    }
}

// A connective that a call is named for.
pub(crate) trait Joining: Connective + Copy {
    ghost call: { ℕ → ℕ → ℕ → Lent → Call };

    ghost makes: { CallsPair Self.op call };
}

impl Joining for And {
    ghost call = { call_both };

    ghost makes = { record { write = λ R store k x y l. refl; due = λ R store k x y l. refl } };
}

impl Joining for Or {
    ghost call = { call_either };

    ghost makes = { record { write = λ R store k x y l. refl; due = λ R store k x y l. refl } };
}

// Two slots' tables side by side.
#[derive(Clone, Copy)]
pub(crate) struct Pair<C> {
    pub(crate) connective: C,
    pub(crate) left: usize,
    pub(crate) right: usize,
}

impl<C: Joining> Pair<C> {
    // The shape of both is the rack's, and their codes are few, so the product is always made.
    fn machine<'a>(
        &self,
        slots: Slots<'a>,
    ) -> Result<Product<C, SlotTable<'a>, SlotTable<'a>>, Refusal>
        requires left { self.now.left < slots.rack.slots }
        requires right { self.now.right < slots.rack.slots }
        ensures { MatchResult result (λ n. product_meaning C.Connective.op table_meaning table_meaning n ≡ pair_layer C.Connective.op (slot_machine slots.entry.rack slots.entry.store.now self.now.left) (slot_machine slots.entry.rack slots.entry.store.now self.now.right)) (λ _. ⊥) }
    {
        let left = slots.slot(self.left).machine();
        let right = slots.slot(self.right).machine();
        Product::of(self.connective, left, right)
    }
}

impl<C: Joining> Filling for Pair<C> {
    ghost call = { λ p k l. C.Joining.call k p.left p.right l };

    fn build(
        &self,
        rack: Rack,
        store: &[u8],
        res: usize,
        working: &mut Working<'_>,
    ) -> Result<Place, Refusal> {
        let slots = ready(rack, store, res, &[self.left, self.right])?;
        let machine = self.machine(slots)?;
        build_in(slots.slot(res), &machine, working)
    }
}

// A slot's table, with some set of nodes put in a track.
#[derive(Clone, Copy)]
pub(crate) struct Projection {
    pub(crate) source: usize,
    pub(crate) track: usize,
}

impl Filling for Projection {
    ghost call = { λ p k l. call_some k p.source p.track l };

    fn build(
        &self,
        rack: Rack,
        store: &[u8],
        res: usize,
        working: &mut Working<'_>,
    ) -> Result<Place, Refusal> {
        let slots = ready(rack, store, res, &[self.source])?;
        let machine = Exists::new(slots.slot(self.source).machine(), self.track)?;
        build_in(slots.slot(res), &machine, working)
    }
}

// A machine of any make.
#[derive_where(Clone, Copy)]
pub(crate) struct Taken<'m, M> {
    pub(crate) machine: &'m M,
}

impl<M: Machine> Filling for Taken<'_, M> {
    ghost call = { λ t k l. call_take k (M.Machine.meaning t.machine.now) l };

    fn build(
        &self,
        rack: Rack,
        store: &[u8],
        res: usize,
        working: &mut Working<'_>,
    ) -> Result<Place, Refusal> {
        let slots = ready(rack, store, res, &[])?;
        if !same_shape(self.machine.shape(), rack.shape) {
            return Err(refused(Reason::ShapesDiffer));
        }
        build_in(slots.slot(res), self.machine, working)
    }
}
