// Reads shapes, rules and listings of trees as text. Draws each tree as an outline, and says whether the rule holds of it,
// or why it is refused.
//
//     shape 2 1 2           two leaf labels, one inner label, two tracks
//     stack 64              places in the stack for the trees that follow
//     rule one              the rule for the trees that follow: one, covered, several, guarded, or none
//     tree 0,1,1,2,2,0      the bytes of a listing
//
// Bad text gets a line of its own, and the next line is read.
#![tactic(auto)]

mod rules;
mod words;

use console::{Command, Rule, draw, read_line};
use rules::check;
use std::io;
use trees::{Origin, Shape};
use words::NoWord;

// What the lines so far have set.
#[derive(Clone, Copy)]
struct Session {
    shape: Shape,
    places: usize,
    rule: Option<Rule>,
}

impl Session {
    // Draws a tree, and says whether the rule holds of it. A listing that is refused is told once, by the drawing.
    fn show(&self, rt: &HostRuntime, listing: &[u8]) -> io::Result<()> {
        let heap = rt.alloc();
        let mut sizes = vec![in heap; 0u16; self.places]?;
        draw(rt, self.shape, listing, sizes.as_mut_slice())?;
        let Some(rule) = self.rule else {
            return Ok(());
        };
        let mut codes = vec![in heap; 0u64; self.places]?;
        match check(rule, self.shape, listing, codes.as_mut_slice()) {
            Ok(true) => println!(rt; "the rule holds"),
            Ok(false) => println!(rt; "the rule does not hold"),
            Err(refusal) if refusal.origin == Origin::Trees => Ok(()),
            Err(refusal) => println!(rt; "no rule: {refusal}"),
        }
    }
}

fn main(rt: HostRuntime) -> io::Result<()> {
    let heap = rt.alloc();
    let mut session = Session {
        shape: Shape {
            leaves: 2,
            inners: 1,
            tracks: 2,
        },
        places: 64,
        rule: None,
    };
    for (at, line) in (1u64..).zip(rt.lines(heap)) {
        match read_line::<Rule, NoWord>(heap, line?.as_str()) {
            Ok(Command::Nothing) => {}
            Ok(Command::Shape(shape)) => session.shape = shape,
            Ok(Command::Stack(places)) => session.places = places,
            Ok(Command::Rule(rule)) => session.rule = rule,
            Ok(Command::Tree(listing)) => {
                println!(rt; "line {at}:")?;
                session.show(&rt, listing.as_slice())?;
            }
            Ok(Command::Own(word)) => match word {},
            Err(fault) => println!(rt; "line {at}: {fault}")?,
        }
    }
    Ok(())
}
