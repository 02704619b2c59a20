// The codes found so far, in the order of discovery, and the cells of the questions asked.
ghost use Rattle.std.specs.Prelude.{◌≡◌, ◌<◌, ◌≤◌, length, MatchOption, MatchResult};
ghost use Rattle.tables.specs.Exploring.{code_at, Known};
ghost use Rattle.tables.specs.Images.{width};

use slots::Layout;

// More codes are reached than there is room for.
#[derive(Clone, Copy, PartialEq, Eq, Debug)]
pub(crate) struct TooMany;

// The first `len` codes are found, and each cell written has the index of one. The memory is lent, as there is no heap.
#[derive(Drop)]
pub(crate) struct Found<'a> {
    pub(crate) layout: Layout,
    pub(crate) codes: &'a mut [u64],
    pub(crate) len: usize,
    pub(crate) cells: &'a mut [u8],
    pub(crate) ghost room: { len ≤ layout.most },
    pub(crate) ghost codes_lent: { layout.most ≤ length codes.now },
    pub(crate) ghost cells_lent: { width layout.shape layout.most ≤ length cells.now },
}

fn index_of(found: &[u64], code: u64) -> Option<usize>
    ensures { MatchOption result (Known found.now (length found.now) code → ⊥) (λ i. (i < length found.now) × (code_at found.now i ≡ code)) }
{
    found.iter().position(|x| *x == code)
}

impl Found<'_> {
    ghost use Rattle.build.specs.Discovery.{codes_found, Met, Full, Kept, Noted};

    // The index of a code, where it is put as the last if it is new. There are at most 32, so the casts fit, which is proved.
    fn meet(&mut self, code: u64) -> Result<u8, TooMany>
        ensures kept { Kept self.old self.new }
        ensures cells { self.new.cells.now ≡ self.old.cells.now }
        ensures met { MatchResult result (λ i. Met (codes_found self.old) (codes_found self.new) code i) (λ _. Full (codes_found self.old) self.old.layout.most code) }
    {
        let codes = &mut *self.codes;
        if let Some(i) = index_of(&codes[..self.len], code) {
            return Ok(i as u8);
        }
        if self.len == self.layout.most {
            return Err(TooMany);
        }
        codes[self.len] = code;
        self.len += 1;
        Ok((self.len - 1) as u8)
    }

    // Meets the code that a question is answered with, and writes its index at the question's address.
    pub(crate) fn note(&mut self, address: usize, code: u64) -> Result<(), TooMany>
        requires { address < length self.old.cells.now }
        ensures kept { Kept self.old self.new }
        ensures noted { MatchResult result (λ _. Noted self.old self.new address code) (λ _. Full (codes_found self.old) self.old.layout.most code) }
    {
        let i = self.meet(code)?;
        self.cells[address] = i;
        Ok(())
    }
}
