// Random machines: tables over random bytes.
use crate::brute::{Brute, image_of};
use crate::random::Random;
use build::Unbuilt;
use images::{Fault, Image};
use machines::SlotTable;
use std::alloc::{AllocError, Global};
use std::io;
use std::num::{NonZeroU8, Saturating};
use trees::Shape;

// The most states of a machine.
const ROOM: u8 = 12;

// From no state to so many.
const COUNTS: usize = 13;

// How cells are drawn: any state; any byte; or so that the machine has codes alike, with this many classes of them. A closure
// in its place would have to hold the draft that draws.
#[derive(Clone, Copy)]
enum Drawing {
    States,
    Bytes,
    Classes(NonZeroU8),
}

fn mixed(a: u64) -> u64 {
    let b = (a ^ a >> 29).wrapping_mul(0x9e37_79b9_7f4a_7c15);
    b ^ b >> 32
}

// A class for these numbers, the same each time.
fn class_for(seed: u64, classes: NonZeroU8) -> u8 {
    let classes = classes.get();
    // fits, as it is below a byte
    (mixed(seed) % u64::from(classes)) as u8
}

// A number from 1 to `most`, rather a large one.
fn draw_many(random: &mut Random, most: u8) -> NonZeroU8 {
    let less = random.byte_below(most).max(random.byte_below(most));
    NonZeroU8::MIN.saturating_add(less)
}

// A machine in the making. What codes alike share comes from the seed.
#[derive(Drop)]
struct Draft<'r> {
    random: &'r mut Random,
    states: u8,
    drawing: Drawing,
    seed: u64,
}

impl Draft<'_> {
    fn new(random: &mut Random) -> Draft<'_> {
        let states = draw_many(random, ROOM).get();
        let drawing = match random.below(8) {
            0 => Drawing::Bytes,
            1 | 2 => Drawing::States,
            _ => Drawing::Classes(draw_many(random, states)),
        };
        let seed = random.next();
        Draft {
            random,
            states,
            drawing,
            seed,
        }
    }

    // A code of the class, which is its rest by the number of classes.
    fn code_in(&mut self, classes: NonZeroU8, class: u8) -> u8 {
        let pick = self.random.byte_below(self.states);
        let code = (pick - pick % classes).saturating_add(class);
        if code < self.states { code } else { class }
    }

    fn cell(&mut self, step: u64, x: u8, y: u8) -> u8 {
        match self.drawing {
            Drawing::States => self.random.byte_below(self.states),
            Drawing::Bytes => self.random.byte(),
            Drawing::Classes(classes) => {
                let seed = step
                    .wrapping_mul(1024)
                    .wrapping_add(u64::from(x % classes) * 32)
                    .wrapping_add(u64::from(y % classes));
                self.code_in(classes, class_for(seed, classes))
            }
        }
    }

    fn draw_final(&mut self, state: u8) -> bool {
        let drawn = match self.drawing {
            Drawing::Classes(classes) => {
                mixed(self.seed.wrapping_add(u64::from(state % classes)))
            }
            _ => self.random.next(),
        };
        drawn % 2 == 1
    }

    // The cells of an inner step.
    fn put_row(&mut self, step: u64, cells: &mut Vec<u8>) -> Result<(), AllocError> {
        for x in 0..ROOM {
            cells.extend((0..ROOM).map(|y| self.cell(step, x, y)))?;
        }
        Ok(())
    }

    fn cells(mut self, alloc: Global, shape: Shape) -> Result<Vec<u8>, AllocError> {
        let marks = 1u64 << (shape.tracks % 8);
        let leaf_rows = u64::from(shape.leaves) * marks;
        let inner_rows = u64::from(shape.inners) * marks;
        let leaf = self.seed;
        let inner = self.seed.wrapping_add(1000);
        let mut cells = vec![in alloc; self.states]?;
        cells.extend((0..ROOM).map(|state| u8::from(self.draw_final(state))))?;
        cells.extend((0..leaf_rows).map(|row| self.cell(leaf.wrapping_add(row), 0, 0)))?;
        for row in 0..inner_rows {
            self.put_row(inner.wrapping_add(row), &mut cells)?;
        }
        Ok(cells)
    }
}

#[derive(Clone, Copy, Default)]
pub struct Tally {
    pub cases: Saturating<u64>,
    pub too_many: Saturating<u64>,
    // tables of fewer states than the machine has codes
    pub merged: Saturating<u64>,
    pub mismatches: Saturating<u64>,
    // how many tables have so many states
    pub states: [Saturating<u64>; COUNTS],
}

impl Tally {
    fn count_states(&mut self, states: u8, codes: usize) {
        self.states[usize::from(states) % COUNTS] += 1;
        if usize::from(states) < codes {
            self.merged += 1;
        }
    }

    fn count(&mut self, built: &Result<Image, Fault>, expected: &Option<Brute>) {
        self.cases += 1;
        match (built, expected) {
            (Ok(image), Some(brute)) if image.cells == brute.image => {
                self.count_states(image.states, brute.codes);
            }
            (Err(Fault::Unbuilt(Unbuilt::TooMany)), None) => self.too_many += 1,
            _ => self.mismatches += 1,
        }
    }

    fn try_one(&mut self, alloc: Global, random: &mut Random) -> io::Result<()> {
        let shape = Shape {
            leaves: random.byte_below(3).saturating_add(1),
            inners: random.byte_below(2).saturating_add(1),
            tracks: random.byte_below(2).saturating_add(1),
        };
        let cells = Draft::new(random).cells(alloc, shape)?;
        let machine = SlotTable::new(cells.as_slice(), shape, usize::from(ROOM));
        let most = usize::from(random.byte_below(9).saturating_add(4));
        let expected = image_of(alloc, &machine, most)?;
        match Image::build(alloc, &machine, most) {
            // no memory is no mismatch
            Err(Fault::Io(fault)) => return Err(fault),
            built => self.count(&built, &expected),
        }
        Ok(())
    }
}

// Builds the tables of so many random machines, and compares them with those by brute force.
pub fn try_machines(alloc: Global, random: &mut Random, cases: u64) -> io::Result<Tally> {
    let mut tally = Tally::default();
    for _ in 0..cases {
        tally.try_one(alloc, random)?;
    }
    Ok(tally)
}
