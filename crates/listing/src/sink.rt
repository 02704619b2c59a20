// Where text goes: counted, or written into a buffer.
ghost use Rattle.std.specs.Prelude.{◌≡◌, ℕ, List, [], ◌∷◌};
ghost use Rattle.listing.specs.Sinks.{Takes, Counted, Pasted};

// In the place of `fmt::Write`: by its contract `write!` says what it wrote where it ends well, and not that it does, while
// a listing is always counted and written.
pub(crate) trait Sink {
    // what it is for the second, which began as the first, to have taken these bytes
    ghost took: { Self → Self → List ℕ → Type 0 };

    fn put(&mut self, byte: u8)
        ensures { Takes took self.old self.new (byte ∷ []) };
}

// Counts the bytes.
#[derive(Drop)]
pub(crate) struct Counter {
    pub(crate) length: usize,
}

impl Sink for Counter {
    ghost took = { λ s t bs. Counted s.length t.length bs };

    fn put(&mut self, _byte: u8) {
        self.length = self.length.wrapping_add(1);
    }
}

// Writes the bytes one after another, and none past the buffer's end. The buffer is lent, and the place is where the next
// byte goes.
#[derive(Drop)]
pub(crate) struct Writer<'a> {
    pub(crate) buffer: &'a mut [u8],
    pub(crate) at: usize,
}

impl Sink for Writer<'_> {
    ghost took = { λ s t bs. (t.buffer.ghost_name ≡ s.buffer.ghost_name) × Pasted s.at s.buffer.now t.at t.buffer.now bs };

    fn put(&mut self, byte: u8) {
        if self.at < self.buffer.len() {
            self.buffer[self.at] = byte;
            self.at += 1;
        }
    }
}
