// Which questions of a step are inside shape and count.
// Each make of machine asks these itself, in a line: a wrapper around steps that ask nothing would be a second trait of the
// same five questions, and a step as a closure is longer than its guard.
ghost use Rattle.std.specs.Prelude.{◌≡◌};
ghost use Rattle.automata.specs.Atoms.{leaf_asked, inner_asked};

use trees::Shape;

pub fn asks_leaf(shape: Shape, label: u8, marks: u8) -> bool
    ensures { result ≡ leaf_asked shape label marks }
{
    label < shape.leaves && shape.has_marks(marks)
}

pub fn asks_inner(shape: Shape, count: u64, label: u8, marks: u8, left: u64, right: u64) -> bool
    ensures { result ≡ inner_asked shape count label marks left right }
{
    label >= shape.leaves
        && shape.has_label(label)
        && shape.has_marks(marks)
        && left < count
        && right < count
}
