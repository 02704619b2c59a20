// Images of tables, for programs that build many. As programs do, it uses the heap.
#![tactic(auto)]

mod fault;
mod image;

pub use fault::Fault;
pub use image::{Image, build_in};
