// What the lines so far have set, and the answers to a tree and to `list`.
use crate::bench::{Bench, Slot};
use crate::rules::{Denial, Rule, make_rule};
use console::draw;
use std::alloc::{AllocError, Global};
use std::io;
use trees::{Origin, Shape};

// A place for each open part: its size for the drawing, its state for the verdict.
#[derive(Drop)]
struct Stack {
    sizes: Vec<u16>,
    states: Vec<u8>,
}

impl Stack {
    fn new(heap: Global, places: usize) -> Result<Stack, AllocError> {
        Ok(Stack {
            sizes: vec![in heap; 0u16; places]?,
            states: vec![in heap; 0u8; places]?,
        })
    }
}

#[derive(Drop)]
pub struct Session {
    bench: Bench,
    rule: Option<Rule>,
    // the rule's table on the bench
    table: Option<Result<Slot, Denial>>,
    stack: Stack,
}

impl Session {
    pub fn new(heap: Global) -> Result<Session, AllocError> {
        let shape = Shape {
            leaves: 2,
            inners: 1,
            tracks: 2,
        };
        Ok(Session {
            bench: Bench::new(heap, shape)?,
            rule: None,
            table: None,
            stack: Stack::new(heap, 64)?,
        })
    }

    pub fn set_shape(&mut self, heap: Global, shape: Shape) -> Result<(), AllocError> {
        self.bench = Bench::new(heap, shape)?;
        self.set_rule(self.rule);
        Ok(())
    }

    pub fn set_stack(&mut self, heap: Global, places: usize) -> Result<(), AllocError> {
        self.stack = Stack::new(heap, places)?;
        Ok(())
    }

    // Makes the rule's table once for all trees that follow.
    pub fn set_rule(&mut self, rule: Option<Rule>) {
        self.rule = rule;
        self.table = rule.map(|rule| make_rule(&mut self.bench, rule));
    }

    // Draws a tree, and passes it or holds it back. A listing that is refused is told once, by the drawing.
    pub fn show(&mut self, rt: &HostRuntime, listing: &[u8]) -> io::Result<()> {
        let Stack { sizes, states } = &mut self.stack;
        draw(rt, self.bench.shape(), listing, sizes.as_mut_slice())?;
        match &self.table {
            None => Ok(()),
            Some(Err(denial)) => println!(rt; "no rule: {denial}"),
            Some(Ok(slot)) => match self.bench.judge(slot, listing, states.as_mut_slice()) {
                Ok(true) => println!(rt; "passed: the rule holds"),
                Ok(false) => println!(rt; "held back: the rule does not hold"),
                Err(refusal) if refusal.origin == Origin::Trees => Ok(()),
                Err(refusal) => println!(rt; "no verdict: {refusal}"),
            },
        }
    }

    // Writes the listing of the rule's table.
    pub fn list(&mut self, rt: &HostRuntime) -> io::Result<()> {
        match &self.table {
            None => println!(rt; "no rule"),
            Some(Err(denial)) => println!(rt; "no rule: {denial}"),
            Some(Ok(slot)) => match self.bench.list(slot) {
                Ok(text) => rt.write_all(text),
                Err(refusal) => println!(rt; "no listing: {refusal}"),
            },
        }
    }
}
