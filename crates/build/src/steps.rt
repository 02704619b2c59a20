// The inner steps that a table has cells for.
ghost use Rattle.std.specs.Prelude.{◌≡◌, ◌+◌, ◌/◌, ◌%◌, ◌^◌, ◌<◌};
ghost use Rattle.trees.specs.Shapes.{InnerLabel, Marks};
ghost use Rattle.tables.specs.Images.{inner_rows};

use slots::Layout;

// The label and the marks of a row of inner cells.
pub(crate) fn inner_step(layout: Layout, row: usize) -> (u8, u8)
    requires { row < inner_rows layout.shape }
    ensures label { result.0 ≡ layout.shape.leaves + row / 2 ^ layout.shape.tracks }
    ensures marks { result.1 ≡ row % 2 ^ layout.shape.tracks }
    ensures asked { (InnerLabel layout.shape result.0) × (Marks layout.shape result.1) }
{
    let (nth, marks) = layout.step(row);
    (layout.shape.leaves + nth, marks)
}
