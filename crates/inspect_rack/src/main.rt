// Reads shapes, rules and listings of trees as text. Draws each tree as an outline, and passes it or holds it back by the
// rule, or says why it is refused.
//
//     shape 2 1 4           two leaf labels, one inner label, four tracks
//     stack 64              places in the stack for the trees that follow
//     rule stopped          the rule for the trees that follow: one, covered, several, guarded, stopped, or none
//     tree 0,1,1,0,2,0      the bytes of a listing
//     list                  the listing of the rule's table
//
// Bad text gets a line of its own, and the next line is read.
#![tactic(auto)]

mod bench;
mod rules;
mod session;
mod words;

use console::{Command, read_line};
use rules::Rule;
use session::Session;
use std::io;
use words::Word;

fn main(rt: HostRuntime) -> io::Result<()> {
    let heap = rt.alloc();
    let mut session = Session::new(heap)?;
    for (at, line) in (1u64..).zip(rt.lines(heap)) {
        match read_line::<Rule, Word>(heap, line?.as_str()) {
            Ok(Command::Nothing) => {}
            Ok(Command::Shape(shape)) => session.set_shape(heap, shape)?,
            Ok(Command::Stack(places)) => session.set_stack(heap, places)?,
            Ok(Command::Rule(rule)) => session.set_rule(rule),
            Ok(Command::Tree(listing)) => {
                println!(rt; "line {at}:")?;
                session.show(&rt, listing.as_slice())?;
            }
            Ok(Command::Own(Word::List)) => {
                println!(rt; "line {at}:")?;
                session.list(&rt)?;
            }
            Err(fault) => println!(rt; "line {at}: {fault}")?,
        }
    }
    Ok(())
}
