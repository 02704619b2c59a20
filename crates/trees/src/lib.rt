// Marked trees: their shape, what a refusal says, and the one reader of listings.
#![tactic(auto)]

mod fold;
mod laws;
mod parts;
mod reader;
mod refusal;
mod shape;
mod values;

pub use fold::{Fold, NoRoom};
pub use laws::{node_laws, put_laws, reading_examples};
pub use parts::{Root, split};
pub use reader::{LONGEST, read};
pub use refusal::{Origin, Reason, Refusal};
pub use shape::Shape;
pub use values::{Algebra, Values};
