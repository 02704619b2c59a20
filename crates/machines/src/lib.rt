// Machines: the table in a slot, and the run of any machine over a listing.
#![tactic(auto)]

mod cell;
mod limits;
mod running;
mod table;

pub use cell::Code;
pub use limits::Limits;
pub use running::{judge, run};
pub use table::{SlotBytes, SlotTable, Table, slot_table_means, table_means};
