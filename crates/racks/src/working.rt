// Memory lent to a call that builds.

// At least N 64-bit codes, W cell bytes and 2 × N class bytes. All of each slice is zeros when the call ends.
#[derive(Drop)]
pub struct Working<'a> {
    pub codes: &'a mut [u64],
    pub cells: &'a mut [u8],
    pub classes: &'a mut [u8],
}
