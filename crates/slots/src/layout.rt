// Where the bytes of a table stand.
ghost use Rattle.std.specs.Prelude.{◌≡◌, ◌+◌, ◌/◌, ◌%◌, ◌^◌, ◌<◌, ◌≤◌, if◌then◌else◌, Some, None, MatchOption, true, false};
ghost use Rattle.tables.specs.Images.{leaf_rows, inner_rows, width, leaf_address, inner_address, fits, Fits};

use crate::addresses::Addresses;
use trees::Shape;

// The shape of a table, and the most states that it has room for, each within its limits.
#[derive(Clone, Copy, PartialEq, Eq, Debug)]
pub struct Layout {
    pub shape: Shape,
    pub most: usize,
    pub ghost within: { Fits shape most },
}

impl Layout {
    pub const MOST_STATES: usize = 32;

    // The layout of these numbers, or none where one is outside its limits.
    pub fn new(shape: Shape, most: usize) -> Option<Layout>
        ensures { MatchOption result (fits shape most ≡ false) (λ l. (fits shape most ≡ true) × ((l.shape ≡ shape) × (l.most ≡ most))) }
    {
        Shape::new(
            usize::from(shape.leaves),
            usize::from(shape.inners),
            usize::from(shape.tracks),
        )?;
        if !(1..=Self::MOST_STATES).contains(&most) {
            return None;
        }
        Some(Layout { shape, most })
    }

    // Where its cells stand.
    pub fn addresses(self) -> Addresses
        ensures shape { result.shape ≡ self.shape }
        ensures most { result.most ≡ self.most }
    {
        Addresses {
            shape: self.shape,
            most: self.most,
        }
    }

    // The number of marks that a node may carry.
    pub fn marks(self) -> usize
        ensures is { result ≡ 2 ^ self.shape.tracks }
        ensures some { 2 ≤ result }
        ensures few { result ≤ 64 }
    {
        self.addresses().marks()
    }

    pub fn leaf_rows(self) -> usize
        ensures is { result ≡ leaf_rows self.shape }
        ensures few { result ≤ 512 }
    {
        usize::from(self.shape.leaves) * self.marks()
    }

    pub fn inner_rows(self) -> usize
        ensures is { result ≡ inner_rows self.shape }
        ensures few { result ≤ 256 }
    {
        usize::from(self.shape.inners) * self.marks()
    }

    // The number of bytes.
    pub fn width(self) -> usize
        ensures { result ≡ width self.shape self.most }
    {
        1 + self.most + self.leaf_rows() + self.inner_rows() * self.most * self.most
    }

    // The label, counted from the first of its kind, and the marks of a row.
    // A cast that narrows is proved to fit: `u8::try_from` would give it an error that cannot come.
    pub fn step(self, row: usize) -> (u8, u8)
        requires { row < 512 }
        ensures label { result.0 ≡ row / 2 ^ self.shape.tracks }
        ensures marks { result.1 ≡ row % 2 ^ self.shape.tracks }
    {
        let marks = self.marks();
        ((row / marks) as u8, (row % marks) as u8)
    }

    pub fn leaf_address(self, label: u8, marks: u8) -> usize
        ensures { result ≡ leaf_address self.shape self.most label marks }
    {
        self.addresses().leaf(label, marks)
    }

    pub fn inner_address(self, label: u8, marks: u8, left: usize, right: usize) -> usize
        requires label { self.shape.leaves ≤ label }
        requires left { left < 32 }
        requires right { right < 32 }
        ensures { result ≡ inner_address self.shape self.most label marks left right }
    {
        self.addresses().inner(label, marks, left, right)
    }
}
