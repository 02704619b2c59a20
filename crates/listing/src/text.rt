// The text of a table, line by line, into any sink.
ghost use Rattle.std.specs.Prelude.{◌≡◌, ℕ, ◌≤◌, ◌∷◌, length, map, decimal};
ghost use Rattle.tables.specs.Images.{width};
ghost use Rattle.tables.specs.Texts.{fields};
ghost use Rattle.listing.specs.Sinks.{Takes, Computes};

use crate::sink::{Counter, Sink, Writer};
use slots::Layout;
use std::convert::identity;
use trees::Shape;

// The least number with two digits.
const TWO_DIGITS: u8 = 10;

// The least number with three digits.
const THREE_DIGITS: u8 = 100;

// A comma and the number in decimal, digit by digit, as a sink takes no `write!`.
fn put_field<S: Sink>(sink: &mut S, number: u8)
    ensures { Takes S.Sink.took sink.old sink.new (44 ∷ decimal number) }
{
    sink.put(b',');
    if number >= THREE_DIGITS {
        sink.put(b'0' + number / 100);
    }
    if number >= TWO_DIGITS {
        sink.put(b'0' + number / 10 % 10);
    }
    sink.put(b'0' + number % 10);
}

// A comma and a number for each byte.
fn put_fields<S: Sink, F: Fn(u8) -> u8>(sink: &mut S, bytes: &[u8], number: F)
    requires { F.IsAlwaysCallable number }
    ensures { (of : ℕ → ℕ) → Computes (F.post number) of → Takes S.Sink.took sink.old sink.new (fields (map of bytes.now)) }
{
    for byte in bytes {
        put_field(sink, number(*byte));
    }
}

// The bytes of a slot, read as a table with `states` states.
#[derive(Clone, Copy)]
pub(crate) struct Slot<'a> {
    bytes: &'a [u8],
    layout: Layout,
    states: u8,
    ghost long: { width layout.shape layout.most ≤ length bytes.now },
    ghost few: { states ≤ layout.most },
}

impl<'a> Slot<'a> {
    ghost use Rattle.std.specs.Prelude.{◌≡◌, ◌+◌, ◌<◌, ◌≤◌, ◌∷◌, true, false, length, map, MatchOption};
    ghost use Rattle.trees.specs.Shapes.{InnerLabel, Marks};
    ghost use Rattle.tables.specs.Images.{kept};
    ghost use Rattle.tables.specs.Texts.{fields};
    ghost use Rattle.tables.specs.Canonical.{slot_text};
    ghost use Rattle.listing.specs.Sinks.{Takes, placed};
    ghost use Rattle.listing.specs.Listings.{listable};
    ghost use Rattle.listing.specs.Rows.{read, text, head_line, final_line, leaf_line, inner_line, lefts_text, marks_text, inners_text};

    // The slot, or none where the numbers or the bytes do not serve.
    pub(crate) fn new(shape: Shape, most: usize, bytes: &'a [u8]) -> Option<Slot<'a>>
        ensures { MatchOption result (listable shape most bytes.now ≡ false) (λ s. (listable shape most bytes.now ≡ true) × (text s ≡ slot_text shape most bytes.now)) }
    {
        let layout = Layout::new(shape, most)?;
        if bytes.len() < layout.width() {
            return None;
        }
        Some(Slot {
            bytes,
            layout,
            // the casts here and at the marks are proved to fit: at most 32 states, at most 64 marks
            states: bytes[0].min(most as u8).max(1),
        })
    }

    // A byte that is no state reads as 0.
    fn cell(&self, byte: u8) -> u8
        ensures { result ≡ kept self.now.states byte }
    {
        if byte < self.states { byte } else { 0 }
    }

    // The fields of cells that stand side by side.
    fn put_cells<S: Sink>(&self, sink: &mut S, cells: &[u8])
        ensures { Takes S.Sink.took sink.old sink.new (fields (map (kept self.now.states) cells.now)) }
    {
        put_fields(sink, cells, |cell| self.cell(cell));
    }

    // Line T: the shape and the number of states.
    fn put_head<S: Sink>(&self, sink: &mut S)
        ensures { Takes S.Sink.took sink.old sink.new (head_line self.now.layout.shape (read self.now)) }
    {
        let shape = self.layout.shape;
        sink.put(b'T');
        put_fields(
            sink,
            &[shape.leaves, shape.inners, shape.tracks, self.states],
            identity,
        );
        sink.put(b'\n');
    }

    // Line A: whether each state is final.
    fn put_finals<S: Sink>(&self, sink: &mut S)
        ensures { Takes S.Sink.took sink.old sink.new (final_line (read self.now)) }
    {
        sink.put(b'A');
        let finals = &self.bytes[1..1 + usize::from(self.states)];
        put_fields(sink, finals, |byte| u8::from(byte == 1));
        sink.put(b'\n');
    }

    // Line L: the leaf cells, by label and marks. They stand side by side.
    fn put_leaves<S: Sink>(&self, sink: &mut S)
        ensures { Takes S.Sink.took sink.old sink.new (leaf_line self.now.layout.shape (read self.now)) }
    {
        let start = self.layout.leaf_address(0, 0);
        sink.put(b'L');
        self.put_cells(sink, &self.bytes[start..start + self.layout.leaf_rows()]);
        sink.put(b'\n');
    }

    // A line I: the inner cells of a label, marks and left state, one for each right state. They stand side by side.
    // Label and marks stay plain numbers: they are of this slot's shape, which a struct of them would hold again.
    fn put_row<S: Sink>(&self, sink: &mut S, label: u8, marks: u8, left: u8)
        requires label { InnerLabel self.now.layout.shape label }
        requires marks { Marks self.now.layout.shape marks }
        requires left { left < self.now.states }
        ensures { Takes S.Sink.took sink.old sink.new (inner_line (read self.now) label marks left) }
    {
        let start = self
            .layout
            .inner_address(label, marks, usize::from(left), 0);
        sink.put(b'I');
        put_fields(sink, &[label, marks, left], identity);
        self.put_cells(sink, &self.bytes[start..start + usize::from(self.states)]);
        sink.put(b'\n');
    }

    // The lines I of a label and marks.
    #[tactic(auto, using(crate::proofs::Takings::takes_over))]
    fn put_lefts<S: Sink>(&self, sink: &mut S, label: u8, marks: u8)
        requires label { InnerLabel self.now.layout.shape label }
        requires marks { Marks self.now.layout.shape marks }
        ensures { Takes S.Sink.took sink.old sink.new (lefts_text (read self.now) label marks) }
    {
        for left in 0..self.states {
            self.put_row(sink, label, marks, left);
        }
    }

    // The lines I of a label.
    #[tactic(auto, using(crate::proofs::Takings::takes_over))]
    fn put_label<S: Sink>(&self, sink: &mut S, label: u8)
        requires { InnerLabel self.now.layout.shape label }
        ensures { Takes S.Sink.took sink.old sink.new (marks_text self.now.layout.shape (read self.now) label) }
    {
        for marks in 0..self.layout.marks() as u8 {
            self.put_lefts(sink, label, marks);
        }
    }

    // The lines I.
    fn put_inners<S: Sink>(&self, sink: &mut S)
        ensures { Takes S.Sink.took sink.old sink.new (inners_text self.now.layout.shape (read self.now)) }
    {
        let shape = self.layout.shape;
        for label in shape.leaves..shape.leaves + shape.inners {
            self.put_label(sink, label);
        }
    }

    #[tactic(auto, using(crate::proofs::Takings::takes_then))]
    fn put_text<S: Sink>(&self, sink: &mut S)
        ensures { Takes S.Sink.took sink.old sink.new (text self.now) }
    {
        self.put_head(sink);
        self.put_finals(sink);
        self.put_leaves(sink);
        self.put_inners(sink);
    }

    // The length of the text.
    pub(crate) fn text_length(&self) -> usize
        ensures { result ≡ length (text self.now) }
    {
        let mut counter = Counter { length: 0 };
        self.put_text(&mut counter);
        counter.length
    }

    // Writes the text at the front of a buffer that is long enough.
    pub(crate) fn write_text(&self, buffer: &mut [u8])
        requires { length (text self.now) ≤ length buffer.old }
        ensures { buffer.new ≡ placed (text self.now) buffer.old }
    {
        let mut writer = Writer {
            buffer: &mut *buffer,
            at: 0,
        };
        self.put_text(&mut writer);
    }
}
