// A machine made outside the library, and tests of machines and layers.
#![tactic(auto)]

mod instances;
mod parity;

pub use instances::{new_below, new_both, new_either, new_lab, new_left, new_right, new_sub};
pub use parity::Parity;

#[cfg(test)]
mod tests;
