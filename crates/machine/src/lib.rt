// What a machine answers, and what every make of machine owes.
#![tactic(auto)]

mod by_reference;
mod guard;
mod making;
mod trait_machine;

pub use guard::{asks_inner, asks_leaf};
pub use making::{check, refused};
pub use trait_machine::Machine;
