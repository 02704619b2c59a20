// The image of a machine's table by brute force: closures over all codes until nothing changes, with no regard to time.
// Codes are below 16.
use crate::bit_set::BitSet;
use machine::Machine;
use std::alloc::{AllocError, Global};
use std::iter;
use trees::Shape;

const CODES: usize = 16;

#[derive(Clone, Copy)]
struct Row {
    label: u8,
    marks: u8,
}

fn rows(alloc: Global, first: u8, labels: u8, tracks: u8) -> Result<Vec<Row>, AllocError> {
    let mut rows = Vec::new(alloc);
    for label in first..first.saturating_add(labels) {
        rows.extend((0..1u8 << tracks % 8).map(|marks| Row { label, marks }))?;
    }
    Ok(rows)
}

// What the step leaves once it changes nothing more, or after so many rounds.
fn settled<T: Copy + PartialEq, F: Fn(T) -> T>(rounds: usize, start: T, step: F) -> T
    requires { F.IsAlwaysCallable step }
{
    let mut now = start;
    for _ in 0..rounds {
        let next = step(now);
        if next == now {
            return now;
        }
        now = next;
    }
    now
}

// A machine, with its leaf steps and its inner steps over one pair, by label and then marks.
#[derive(Drop)]
struct Steps<'m, M> {
    machine: &'m M,
    leaf: Vec<Row>,
    inner: Vec<Row>,
}

impl<'m, M: Machine> Steps<'m, M> {
    fn new(alloc: Global, machine: &'m M) -> Result<Steps<'m, M>, AllocError> {
        let Shape {
            leaves,
            inners,
            tracks,
        } = machine.shape();
        Ok(Steps {
            machine,
            leaf: rows(alloc, 0, leaves, tracks)?,
            inner: rows(alloc, leaves, inners, tracks)?,
        })
    }

    fn at_leaf(&self, row: Row) -> u64 {
        self.machine.leaf(row.label, row.marks)
    }

    fn at_inner(&self, row: Row, left: u64, right: u64) -> u64 {
        self.machine.inner(row.label, row.marks, left, right)
    }

    fn by_leaves(&self) -> BitSet {
        self.leaf.iter().fold(BitSet::EMPTY, |set, row| {
            set | BitSet::only(self.at_leaf(*row))
        })
    }

    fn by_pair(&self, left: u64, right: u64) -> BitSet {
        self.inner.iter().fold(BitSet::EMPTY, |set, row| {
            set | BitSet::only(self.at_inner(*row, left, right))
        })
    }

    fn by_left(&self, left: u64, set: BitSet) -> BitSet {
        set.into_iter().fold(BitSet::EMPTY, |reached, right| {
            reached | self.by_pair(left, right)
        })
    }

    // The set with what its pairs reach.
    fn closed_once(&self, set: BitSet) -> BitSet {
        set.into_iter()
            .fold(set, |reached, left| reached | self.by_left(left, set))
    }

    fn reached(&self) -> BitSet {
        settled(CODES, self.by_leaves(), |set| self.closed_once(set))
    }

    // Whether a step with the code z leads to a pair that is told apart.
    fn step_tells(&self, told: &Told, x: u64, y: u64, z: u64) -> bool {
        self.inner.iter().any(|row| {
            told.has(self.at_inner(*row, x, z), self.at_inner(*row, y, z))
                || told.has(self.at_inner(*row, z, x), self.at_inner(*row, z, y))
        })
    }

    fn tells(&self, known: BitSet, told: &Told, x: u64, y: u64) -> bool {
        self.machine.is_final(x) != self.machine.is_final(y)
            || known.into_iter().any(|z| self.step_tells(told, x, y, z))
    }

    // The codes that are told apart from x by the pairs told apart so far.
    fn told_from(&self, known: BitSet, told: &Told, x: u64) -> BitSet {
        known
            .into_iter()
            .filter(|y| told.has(x, *y) || self.tells(known, told, x, *y))
            .fold(BitSet::EMPTY, |set, y| set | BitSet::only(y))
    }

    fn told_once(&self, known: BitSet, told: Told) -> Told {
        let mut more = told;
        for x in known {
            more.put(x, self.told_from(known, &told, x));
        }
        more
    }

    fn told_apart(&self, known: BitSet) -> Told {
        let none = Told {
            rows: [BitSet::EMPTY; CODES],
        };
        settled(CODES * CODES, none, |told| self.told_once(known, told))
    }
}

// Of each code, those that are told apart from it. (Rust has no `From` between `u64` and `usize`, so codes are cast.)
#[derive(Clone, Copy, PartialEq)]
struct Told {
    rows: [BitSet; CODES],
}

impl Told {
    fn has(&self, x: u64, y: u64) -> bool {
        self.rows[x as usize % CODES].has(y)
    }

    fn put(&mut self, x: u64, others: BitSet) {
        self.rows[x as usize % CODES] |= others;
    }
}

// The classes of codes not told apart: the first code of each, in the order in which the classes are met.
#[derive(Drop)]
struct Classes<'s, 'm, M> {
    steps: &'s Steps<'m, M>,
    told: Told,
    firsts: Vec<u64>,
}

impl<M: Machine> Classes<'_, '_, M> {
    // The number of the code's class, where it is met.
    fn class_of(&self, code: u64) -> Option<usize> {
        self.firsts
            .iter()
            .position(|first| !self.told.has(*first, code))
    }

    fn meet(&mut self, code: u64) -> Result<(), AllocError> {
        if self.class_of(code).is_none() {
            self.firsts.push(code)?;
        }
        Ok(())
    }

    fn meet_leaves(&mut self) -> Result<(), AllocError> {
        let steps = self.steps;
        for row in &steps.leaf {
            self.meet(steps.at_leaf(*row))?;
        }
        Ok(())
    }

    fn meet_pair(&mut self, left: u64, right: u64) -> Result<(), AllocError> {
        let steps = self.steps;
        for row in &steps.inner {
            self.meet(steps.at_inner(*row, left, right))?;
        }
        Ok(())
    }

    // The pairs of a class with those before it: the later at the right, itself with itself, the later at the left.
    fn meet_ring(&mut self, alloc: Global, m: usize) -> Result<(), AllocError> {
        let Some(later) = self.firsts.get(m).copied() else {
            return Ok(());
        };
        let earlier: Vec<u64> = self.firsts.iter().copied().take(m).collect(alloc)?;
        let at_right = earlier.iter().map(|first| (*first, later));
        let at_left = earlier.iter().map(|first| (later, *first));
        let pairs = at_right.chain(iter::once((later, later))).chain(at_left);
        for (left, right) in pairs {
            self.meet_pair(left, right)?;
        }
        Ok(())
    }

    // A ring may lengthen the list that the rings go over, so they are counted.
    fn meet_all(&mut self, alloc: Global) -> Result<(), AllocError> {
        self.meet_leaves()?;
        for m in 0..CODES {
            self.meet_ring(alloc, m)?;
        }
        Ok(())
    }

    // A code of no class that is met would show as a state that no table has.
    fn byte_of(&self, code: u64) -> u8 {
        self.class_of(code)
            .and_then(|class| u8::try_from(class).ok())
            .unwrap_or(u8::MAX)
    }

    // Of two states the class of their step, else 0.
    fn inner_cell(&self, row: Row, x: usize, y: usize) -> u8 {
        match (self.firsts.get(x), self.firsts.get(y)) {
            (Some(left), Some(right)) => self.byte_of(self.steps.at_inner(row, *left, *right)),
            _ => 0,
        }
    }

    fn final_cell(&self, x: usize) -> u8 {
        self.firsts
            .get(x)
            .map_or(0, |first| u8::from(self.steps.machine.is_final(*first)))
    }

    fn put_row(&self, row: Row, most: usize, image: &mut Vec<u8>) -> Result<(), AllocError> {
        for x in 0..most {
            image.extend((0..most).map(|y| self.inner_cell(row, x, y)))?;
        }
        Ok(())
    }

    fn image(&self, alloc: Global, most: usize) -> Result<Vec<u8>, AllocError> {
        let steps = self.steps;
        let states = u8::try_from(self.firsts.len()).unwrap_or(u8::MAX);
        let mut image = vec![in alloc; states]?;
        image.extend((0..most).map(|x| self.final_cell(x)))?;
        image.extend(
            steps
                .leaf
                .iter()
                .map(|row| self.byte_of(steps.at_leaf(*row))),
        )?;
        for row in &steps.inner {
            self.put_row(*row, most, &mut image)?;
        }
        Ok(image)
    }
}

#[derive(Drop)]
pub struct Brute {
    pub image: Vec<u8>,
    pub codes: usize,
}

// The image of the machine's table and how many codes it reaches, or none where those are more than `most`.
pub fn image_of<M: Machine>(
    alloc: Global,
    machine: &M,
    most: usize,
) -> Result<Option<Brute>, AllocError> {
    let steps = Steps::new(alloc, machine)?;
    let known = steps.reached();
    let codes = known.len();
    if codes > most {
        return Ok(None);
    }
    let mut classes = Classes {
        steps: &steps,
        told: steps.told_apart(known),
        firsts: Vec::new(alloc),
    };
    classes.meet_all(alloc)?;
    let image = classes.image(alloc, most)?;
    Ok(Some(Brute { image, codes }))
}
