// A bench: a rack with all its memory, where a rule is put together slot by slot.
use rack::{Atom, Rack, Working};
use slots::Layout;
use std::alloc::{AllocError, Global};
use store::refused;
use trees::{Reason, Refusal, Shape};

// The most codes that a table may come from.
const MOST: usize = 32;

// Two parts, what they are joined to, and a part that waits.
const SLOTS: usize = 4;

// The slot of a table. A call that needs the table no longer takes the slot, and empties it.
#[derive(Drop)]
pub struct Slot(usize);

#[derive(Drop)]
pub struct Bench {
    rack: Rack,
    store: Vec<u8>,
    // working memory of the calls
    codes: Vec<u64>,
    cells: Vec<u8>,
    classes: Vec<u8>,
    // room for a listing
    text: Vec<u8>,
}

// The bytes of a slot, or none where no table of the shape fits.
fn width(shape: Shape) -> Option<usize> {
    Layout::new(shape, MOST).map(|layout| layout.width())
}

impl Bench {
    // The memory for trees of the shape. The bench is cleared before each rule.
    pub fn new(heap: Global, shape: Shape) -> Result<Bench, AllocError> {
        // a bench of no bytes refuses to be cleared
        let width = width(shape).unwrap_or(0);
        Ok(Bench {
            rack: Rack {
                shape,
                most: MOST,
                slots: SLOTS,
            },
            store: vec![in heap; 0u8; width.saturating_mul(SLOTS)]?,
            codes: vec![in heap; 0u64; MOST]?,
            cells: vec![in heap; 0u8; width]?,
            classes: vec![in heap; 0u8; 2 * MOST]?,
            // a listing has no more than four bytes for each byte of a slot
            text: vec![in heap; 0u8; width.saturating_mul(4)]?,
        })
    }

    pub fn shape(&self) -> Shape {
        self.rack.shape
    }

    // Empties every slot.
    pub fn clear(&mut self) -> Result<(), Refusal> {
        let Shape {
            leaves,
            inners,
            tracks,
        } = self.rack.shape;
        self.rack = rack::make(
            usize::from(leaves),
            usize::from(inners),
            usize::from(tracks),
            MOST,
            SLOTS,
            self.store.as_mut_slice(),
        )?;
        Ok(())
    }

    // The rack with its store and working memory, for one call.
    fn lend(&mut self) -> (Rack, &mut [u8], Working<'_>) {
        let rack = self.rack;
        let working = Working {
            codes: self.codes.as_mut_slice(),
            cells: self.cells.as_mut_slice(),
            classes: self.classes.as_mut_slice(),
        };
        (rack, self.store.as_mut_slice(), working)
    }

    // The first slot without a table.
    fn free(&self) -> Result<usize, Refusal> {
        (0..SLOTS)
            .find(|slot| rack::machine(self.rack, self.store.as_slice(), *slot).is_err())
            .ok_or(refused(Reason::NoSuchSlot))
    }

    // Has a call put a table into a free slot, and empties the slots that it came from.
    fn fill<F>(&mut self, sources: &[usize], call: F) -> Result<Slot, Refusal>
    where
        F: FnOnce(&mut Bench, usize) -> Result<(), Refusal>,
        requires { F.IsAlwaysCallable call }
    {
        let to = self.free()?;
        call(self, to)?;
        for source in sources {
            rack::drop(self.rack, self.store.as_mut_slice(), *source)?;
        }
        Ok(Slot(to))
    }

    pub fn atom(&mut self, atom: Atom) -> Result<Slot, Refusal> {
        self.fill(&[], |bench, to| {
            let (rack, store, working) = bench.lend();
            rack::atom(rack, store, to, atom, working)
        })
    }

    pub fn not(&mut self, Slot(source): Slot) -> Result<Slot, Refusal> {
        self.fill(&[source], |bench, to| {
            let (rack, store, working) = bench.lend();
            rack::not(rack, store, to, source, working)
        })
    }

    pub fn both(&mut self, Slot(left): Slot, Slot(right): Slot) -> Result<Slot, Refusal> {
        self.fill(&[left, right], |bench, to| {
            let (rack, store, working) = bench.lend();
            rack::both(rack, store, to, left, right, working)
        })
    }

    pub fn either(&mut self, Slot(left): Slot, Slot(right): Slot) -> Result<Slot, Refusal> {
        self.fill(&[left, right], |bench, to| {
            let (rack, store, working) = bench.lend();
            rack::either(rack, store, to, left, right, working)
        })
    }

    pub fn some(&mut self, Slot(source): Slot, track: usize) -> Result<Slot, Refusal> {
        self.fill(&[source], |bench, to| {
            let (rack, store, working) = bench.lend();
            rack::some(rack, store, to, source, track, working)
        })
    }

    // Whether the slot's rule holds of the tree.
    pub fn judge(&self, slot: &Slot, listing: &[u8], stack: &mut [u8]) -> Result<bool, Refusal> {
        rack::judge(self.rack, self.store.as_slice(), slot.0, listing, stack)
    }

    // The listing of the slot's table.
    pub fn list(&mut self, slot: &Slot) -> Result<&[u8], Refusal> {
        let length = rack::list(
            self.rack,
            self.store.as_slice(),
            slot.0,
            self.text.as_mut_slice(),
        )?;
        Ok(&self.text[..length])
    }
}
