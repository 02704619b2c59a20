// A rack: the shape of its trees, the most codes that a table may come from, and the number of its slots.
use trees::Shape;

// Plain numbers: every promise holds of any rack, also of one that Make would not make. The store is not among them: it is
// lent at each call, beside the rack.
#[derive(Clone, Copy, PartialEq, Eq, Debug)]
pub struct Rack {
    pub shape: Shape,
    pub most: usize,
    pub slots: usize,
}
