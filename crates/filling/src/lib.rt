// The calls that fill a slot with the table of a machine.
#![tactic(auto)]

mod builds;
mod calls;
mod filling;
mod fillings;

pub use calls::{atom, both, either, not, some, take};
