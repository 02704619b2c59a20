// The six atomic rules as machines.
#![tactic(auto)]

mod atom;
mod below;
mod child;
mod every;
mod lab;
mod left;
mod marks;
mod related;
mod right;
mod sing;
mod sub;

pub use atom::Atom;
pub use below::{Below, Descendant};
pub use every::{Every, NodeRule};
pub use lab::{Lab, Labelled};
pub use left::{Left, LeftChild};
pub use related::{Related, Relation};
pub use right::{Right, RightChild};
pub use sing::Sing;
pub use sub::{Inclusion, Sub};
