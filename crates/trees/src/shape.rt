// Shapes: which labels and marks the nodes of a tree may have.
ghost use Rattle.std.specs.Prelude.{◌≡◌, ◌+◌, ◌^◌, ◌<◌, ◌&&◌, if◌then◌else◌, Some, None, nat_lt};
ghost use Rattle.trees.specs.Shapes.{within, limits, labels};

// `leaves` leaf labels from 0 on, then `inners` inner labels; `tracks` tracks from 0 on.
// Plain numbers: every promise holds of any shape, also of one that `new` would not make.
#[derive(Clone, Copy, PartialEq, Eq, Debug)]
pub struct Shape {
    pub leaves: u8,
    pub inners: u8,
    pub tracks: u8,
}

// A count from 1 on, or none past the most.
fn up_to(count: usize, most: usize) -> Option<u8>
    requires { most < 256 }
    ensures { result ≡ (if within 1 most count then Some count else None) }
{
    u8::try_from(count)
        .ok()
        .filter(|_| (1..=most).contains(&count))
}

impl Shape {
    pub const MOST_LEAVES: usize = 8;

    pub const MOST_INNERS: usize = 4;

    pub const MOST_TRACKS: usize = 6;

    // The shape of these numbers, or none where one is outside its limits.
    pub fn new(leaves: usize, inners: usize, tracks: usize) -> Option<Shape>
        ensures { result ≡ (if limits leaves inners tracks then Some (record { leaves = leaves; inners = inners; tracks = tracks }) else None) }
    {
        Some(Shape {
            leaves: up_to(leaves, Self::MOST_LEAVES)?,
            inners: up_to(inners, Self::MOST_INNERS)?,
            tracks: up_to(tracks, Self::MOST_TRACKS)?,
        })
    }

    pub fn has_label(self, label: u8) -> bool
        ensures { result ≡ nat_lt label (labels self) }
    {
        usize::from(label) < usize::from(self.leaves) + usize::from(self.inners)
    }

    pub fn has_marks(self, marks: u8) -> bool
        ensures { result ≡ nat_lt marks (2 ^ self.tracks) }
    {
        self.tracks >= 8 || marks < 1 << self.tracks
    }
}
