// A tree as an indented outline: each node with its kind, its tracks and the number of nodes of its part.
ghost use Rattle.std.specs.Prelude.{◌≡◌, length, replicate};

use std::{fmt, io};
use trees::{Root, Shape, split};

// The tracks of the shape that a node is in.
#[derive(Clone, Copy)]
struct Tracks {
    shape: Shape,
    marks: u8,
}

impl fmt::Display for Tracks {
    fn fmt<W: fmt::Write>(&self, f: &mut fmt::Formatter<W>) -> fmt::Result {
        let mut marked = (0..self.shape.tracks.min(8))
            .filter(|track| self.marks >> *track & 1 == 1)
            .peekable();
        if marked.peek().is_none() {
            return f.write_str(" none");
        }
        for track in marked {
            write!(f, " {track}")?;
        }
        Ok(())
    }
}

// Two blanks for each of so many levels, which are written at once: each piece written costs a call.
const BLANKS: &str = "                                                                ";

const LEVELS: usize = 32;

// The row of a node under `depth` others.
#[derive(Clone, Copy)]
struct Row<'a> {
    shape: Shape,
    root: Root<'a>,
    nodes: usize,
    depth: usize,
}

impl fmt::Display for Row<'_> {
    fn fmt<W: fmt::Write>(&self, f: &mut fmt::Formatter<W>) -> fmt::Result {
        for _ in 0..self.depth / LEVELS {
            f.write_str(BLANKS)?;
        }
        f.write_str(BLANKS.get(..2 * (self.depth % LEVELS)).unwrap_or(""))?;
        let (kind, label, marks) = match self.root {
            Root::Leaf { label, marks } => ("leaf", label, marks),
            Root::Inner { label, marks, .. } => ("inner", label, marks),
        };
        let tracks = Tracks {
            shape: self.shape,
            marks,
        };
        write!(f, "{kind} {label}, tracks{tracks}, nodes {}", self.nodes)
    }
}

fn draw_under(
    rt: &impl Print,
    shape: Shape,
    listing: &[u8],
    stack: &mut [u16],
    depth: usize,
) -> io::Result<()>
    ensures { stack.new ≡ replicate (length stack.old) 0 }
{
    let root = match split(shape, listing, stack) {
        Ok(root) => root,
        Err(refusal) => return println!(rt; "{refusal}"),
    };
    rt.println(Row {
        shape,
        root,
        nodes: listing.len() / 2,
        depth,
    })?;
    if let Root::Inner { left, right, .. } = root {
        draw_under(rt, shape, left, stack, depth.saturating_add(1))?;
        draw_under(rt, shape, right, stack, depth.saturating_add(1))?;
    }
    Ok(())
}

// Draws the tree from its root down, or says why the listing is refused. The stack has a place for each open part.
pub fn draw(rt: &impl Print, shape: Shape, listing: &[u8], stack: &mut [u16]) -> io::Result<()>
    ensures { stack.new ≡ replicate (length stack.old) 0 }
{
    draw_under(rt, shape, listing, stack, 0)
}
