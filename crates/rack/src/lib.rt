// The rack: tables of rules in the slots of a lent store, and the calls on them.
#![tactic(auto)]

mod emptying;
mod making;
mod reading;

pub use atoms::Atom;
pub use emptying::drop;
pub use filling::{atom, both, either, not, some, take};
pub use making::make;
pub use racks::{Rack, Working, guarantee};
pub use reading::{judge, list, machine};
