// The build of a machine's table in lent memory.
#![tactic(auto)]

mod building;
mod discover;
mod found;
mod image;
mod refine;
mod steps;
mod unbuilt;

pub use building::{build_cleared, build_table};
pub use unbuilt::Unbuilt;
