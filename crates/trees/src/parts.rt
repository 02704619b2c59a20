// A tree's root and the listings of its two parts.
ghost use Rattle.std.specs.Prelude.{◌≡◌, length, replicate, IfOk, Some, MatchResult};
ghost use Rattle.trees.specs.Trees.{Tree, size};
ghost use Rattle.trees.specs.Reading.{first_refusal, Reads};
ghost use Rattle.trees.specs.Parts.{places, capped, Heads, Shorter};

use crate::reader::read;
use crate::refusal::Refusal;
use crate::shape::Shape;
use crate::values::{Algebra, Values};
use lent::Cleared;

#[derive(Clone, Copy, PartialEq, Eq, Debug)]
pub enum Root<'a> {
    Leaf {
        label: u8,
        marks: u8,
    },
    Inner {
        label: u8,
        marks: u8,
        left: &'a [u8],
        right: &'a [u8],
    },
}

// The number of nodes of a tree.
#[derive(Drop)]
struct Sizes;

impl Algebra<u16> for Sizes {
    ghost comes_to = { λ _ t n. n ≡ capped (size t) };

    fn leaf(&self, _label: u8, _marks: u8) -> u16 {
        1
    }

    fn inner(&self, _label: u8, _marks: u8, left: u16, right: u16) -> u16 {
        left.saturating_add(right).saturating_add(1)
    }
}

// The root of the tree whose listing this is, with the listings of its parts. The stack has a place for each open part.
pub fn split<'a>(shape: Shape, listing: &'a [u8], stack: &mut [u16]) -> Result<Root<'a>, Refusal>
    ensures answer { MatchResult result (λ root. (t : Tree) × Reads shape (places stack.old) listing.now t × Heads t root) (λ e. first_refusal shape (places stack.old) listing.now ≡ Some e) }
    ensures shorter { IfOk result (λ root. Shorter root (length listing.now)) }
    ensures cleared { stack.new ≡ replicate (length stack.old) 0 }
{
    let guard = Cleared { cells: stack };
    let mut sizes = Values {
        algebra: Sizes,
        stack: &mut *guard.cells,
    };
    read(shape, listing, &mut sizes)?;
    let [parts @ .., label, marks] = listing else {
        unreachable!()
    };
    if *label < shape.leaves {
        return Ok(Root::Leaf {
            label: *label,
            marks: *marks,
        });
    }
    // the right part's size is left above that of the whole
    let right_bytes = 2 * usize::from(sizes.stack[1]);
    let (left, right) = parts.split_at(parts.len() - right_bytes);
    Ok(Root::Inner {
        label: *label,
        marks: *marks,
        left,
        right,
    })
}
