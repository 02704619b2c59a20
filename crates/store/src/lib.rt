// The slots of a lent store: the checks that calls share, the machine of a slot, and bytes put in a slot.
#![tactic(auto)]

mod checks;
mod refusal;
mod slot;

pub use checks::{filled, ready};
pub use refusal::refused;
pub use slot::{Place, Slot, Slots};
