// Machines over machines: complement, product and projection.
#![tactic(auto)]

mod complement;
mod members;
mod product;
mod projection;
mod set_codes;

pub use complement::Not;
pub use product::{And, Both, Connective, Either, Logical, Or, Product, same_shape};
pub use projection::Exists;
