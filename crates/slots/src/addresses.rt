// Where the cells of a table stand.
ghost use Rattle.std.specs.Prelude.{◌≡◌, ◌+◌, ◌*◌, ◌^◌, ◌<◌, ◌≤◌, MatchOption, true, false};
ghost use Rattle.tables.specs.Images.{leaf_address, inner_address};
ghost use Rattle.slots.specs.Sizes.{sized};

use crate::layout::Layout;
use trees::Shape;

// The shape of a table, and the most states that it has room for, small enough for addresses.
#[derive(Clone, Copy, PartialEq, Eq, Debug)]
pub struct Addresses {
    pub shape: Shape,
    pub most: usize,
    pub ghost few_tracks: { shape.tracks ≤ 6 },
    pub ghost some_states: { 1 ≤ most },
    pub ghost few_states: { most ≤ 32 },
}

impl Addresses {
    // The addresses of these numbers, or none where they are too large, or there is no room for a state.
    pub fn new(shape: Shape, most: usize) -> Option<Addresses>
        ensures { MatchOption result (sized shape most ≡ false) (λ a. (sized shape most ≡ true) × ((a.shape ≡ shape) × (a.most ≡ most))) }
    {
        if usize::from(shape.tracks) > Shape::MOST_TRACKS {
            return None;
        }
        if !(1..=Layout::MOST_STATES).contains(&most) {
            return None;
        }
        Some(Addresses { shape, most })
    }

    // The number of marks that a node may carry.
    pub fn marks(self) -> usize
        ensures is { result ≡ 2 ^ self.shape.tracks }
        ensures few { result ≤ 64 }
    {
        1usize << self.shape.tracks
    }

    pub fn leaf(self, label: u8, marks: u8) -> usize
        ensures { result ≡ leaf_address self.shape self.most label marks }
    {
        1 + self.most + (usize::from(label) * self.marks() + usize::from(marks))
    }

    pub fn inner(self, label: u8, marks: u8, left: usize, right: usize) -> usize
        requires label { self.shape.leaves ≤ label }
        requires left { left < 32 }
        requires right { right < 32 }
        ensures { result ≡ inner_address self.shape self.most label marks left right }
    {
        let row = usize::from(label - self.shape.leaves) * self.marks() + usize::from(marks);
        let leaf_cells = usize::from(self.shape.leaves) * self.marks();
        1 + self.most + leaf_cells + (row * (self.most * self.most) + left * self.most + right)
    }
}
