// The listing of a table: its text, written from the bytes of a slot.
#![tactic(auto)]

mod listing;
mod sink;
mod text;

pub use listing::{Unwritten, list_table};
