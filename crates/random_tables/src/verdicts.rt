// Random rules: the verdicts of their built tables against set logic.
use crate::formula::{Formula, Truth, draw_formulas};
use crate::random::Random;
use crate::small_tree::{Tree, draw_tree};
use atoms::{Atom, Below, Lab, Left, Right, Sing, Sub};
use build::Unbuilt;
use images::{Fault, Image};
use layers::{Both, Either, Exists, Not};
use machine::Machine;
use machines::{SlotTable, judge};
use slots::Layout;
use std::alloc::Global;
use std::io;
use std::num::Saturating;
use trees::Shape;

// A formula, and the image of its table, or none where it or one below it has too many states.
#[derive(Drop)]
struct Rule {
    formula: Formula,
    image: Option<Image>,
}

// Rules of a shape, each over those before it.
#[derive(Drop)]
struct Rules {
    alloc: Global,
    shape: Shape,
    rules: Vec<Rule>,
}

impl Rules {
    fn table(&self, p: usize) -> Result<SlotTable<'_>, Unbuilt> {
        match self.rules.get(p).and_then(|rule| rule.image.as_ref()) {
            Some(image) => Ok(image.table()),
            None => Err(Unbuilt::TooMany),
        }
    }

    fn build<M: Machine>(&self, machine: &M) -> Result<Image, Fault> {
        Image::build(self.alloc, machine, Layout::MOST_STATES)
    }

    // Each atom's machine has a type of its own, so there is an arm for each.
    fn build_atom(&self, atom: Atom) -> Result<Image, Fault> {
        match atom {
            Atom::Sub(i, j) => self.build(&Sub::new(self.shape, i, j)?),
            Atom::Lab(i, label) => self.build(&Lab::new(self.shape, i, label)?),
            Atom::Sing(i) => self.build(&Sing::new(self.shape, i)?),
            Atom::Left(i, j) => self.build(&Left::new(self.shape, i, j)?),
            Atom::Right(i, j) => self.build(&Right::new(self.shape, i, j)?),
            Atom::Below(i, j) => self.build(&Below::new(self.shape, i, j)?),
        }
    }

    fn build_formula(&self, formula: Formula) -> Result<Image, Fault> {
        match formula {
            Formula::Atom(atom) => self.build_atom(atom),
            Formula::Not(p) => self.build(&Not::new(self.table(p)?)),
            Formula::Exists(track, p) => self.build(&Exists::new(self.table(p)?, track)?),
            Formula::Both(p, q) => self.build(&Both::new(self.table(p)?, self.table(q)?)?),
            Formula::Either(p, q) => self.build(&Either::new(self.table(p)?, self.table(q)?)?),
        }
    }

    fn rule(&self, formula: Formula) -> Result<Rule, Fault> {
        let image = match self.build_formula(formula) {
            Ok(image) => Some(image),
            Err(Fault::Unbuilt(Unbuilt::TooMany)) => None,
            Err(fault) => return Err(fault),
        };
        Ok(Rule { formula, image })
    }

    fn add(&mut self, rule: Rule) -> io::Result<()> {
        self.rules.push(rule)?;
        Ok(())
    }

    // Of which markings of the tree each rule holds.
    fn truths(&self, tree: &Tree) -> io::Result<Vec<Truth>> {
        let mut truths = Vec::new(self.alloc);
        for rule in &self.rules {
            let truth = rule.formula.truth(self.alloc, tree, &truths)?;
            truths.push(truth)?;
        }
        Ok(truths)
    }
}

fn draw_rules(alloc: Global, random: &mut Random, shape: Shape) -> Result<Rules, Fault> {
    let mut rules = Rules {
        alloc,
        shape,
        rules: Vec::new(alloc),
    };
    for formula in draw_formulas(alloc, random, shape)? {
        let rule = rules.rule(formula)?;
        rules.add(rule)?;
    }
    Ok(rules)
}

#[derive(Clone, Copy, Default)]
pub struct Verdicts {
    pub rules: Saturating<u64>,
    pub unbuilt: Saturating<u64>,
    pub states: Saturating<u64>,
    pub most_states: u8,
    pub yes: Saturating<u64>,
    pub no: Saturating<u64>,
    pub mismatches: Saturating<u64>,
}

impl Verdicts {
    fn count(&mut self, expected: Option<bool>, answer: bool) {
        if expected != Some(answer) {
            self.mismatches += 1;
        } else if answer {
            self.yes += 1;
        } else {
            self.no += 1;
        }
    }

    fn count_rules(&mut self, rules: &Rules) {
        for rule in &rules.rules {
            self.rules += 1;
            match &rule.image {
                Some(image) => {
                    self.states += u64::from(image.states);
                    self.most_states = self.most_states.max(image.states);
                }
                None => self.unbuilt += 1,
            }
        }
    }
}

// Where rules and trees are drawn from, and the verdicts so far.
#[derive(Drop)]
struct Trial<'r> {
    alloc: Global,
    random: &'r mut Random,
    verdicts: Verdicts,
}

impl Trial<'_> {
    // Half of the markings have few marks, so that sets of one node come up.
    fn draw_marking(&mut self, tree: &Tree) -> u64 {
        let marking = self.random.below(tree.markings().end);
        if self.random.coin() {
            marking & self.random.next() & self.random.next()
        } else {
            marking
        }
    }

    // Judges some markings of a tree by a rule's table.
    fn try_tree(&mut self, tree: &Tree, image: &Image, truth: &Truth) -> Result<(), Fault> {
        for _ in 0..8 {
            let marking = self.draw_marking(tree);
            let listing = tree.listing(self.alloc, marking)?;
            let mut stack = [0u8; 8];
            let answer = judge(&image.table(), listing.as_slice(), &mut stack)?;
            self.verdicts.count(truth.get(marking), answer);
        }
        Ok(())
    }

    // One tree under each rule.
    fn try_rules(&mut self, rules: &Rules) -> Result<(), Fault> {
        let most_leaves = if rules.shape.tracks < 3 { 4 } else { 3 };
        let leaves = self.random.byte_below(most_leaves).saturating_add(1);
        let tree = draw_tree(self.alloc, self.random, rules.shape, leaves)?;
        let truths = rules.truths(&tree)?;
        for (rule, truth) in rules.rules.iter().zip(truths.iter()) {
            if let Some(image) = &rule.image {
                self.try_tree(&tree, image, truth)?;
            }
        }
        Ok(())
    }

    // Some rules over one another, and some trees under each of them.
    fn try_batch(&mut self, trees: u64) -> Result<(), Fault> {
        let shape = Shape {
            leaves: 2,
            inners: 1,
            tracks: if self.random.coin() { 2 } else { 3 },
        };
        let rules = draw_rules(self.alloc, self.random, shape)?;
        self.verdicts.count_rules(&rules);
        for _ in 0..trees {
            self.try_rules(&rules)?;
        }
        Ok(())
    }
}

// Judges random trees by the tables of random rules, and compares the verdicts with set logic.
pub fn try_verdicts(
    alloc: Global,
    random: &mut Random,
    batches: u64,
    trees: u64,
) -> Result<Verdicts, Fault> {
    let mut trial = Trial {
        alloc,
        random,
        verdicts: Verdicts::default(),
    };
    for _ in 0..batches {
        trial.try_batch(trees)?;
    }
    Ok(trial.verdicts)
}
