// Slots: where the bytes of a table stand.
#![tactic(auto)]

mod addresses;
mod layout;

pub use addresses::Addresses;
pub use layout::Layout;
