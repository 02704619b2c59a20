// What the programs that inspect trees share: a line of input read as a command, and a tree drawn as an outline. As programs
// do, it uses the heap.
#![tactic(auto)]

mod command;
mod fault;
mod numbers;
mod outline;
mod rule;

pub use command::{Command, read_line};
pub use fault::Fault;
pub use outline::draw;
pub use rule::Rule;
