// Writes the listing of a small rule: exactly one node is in track 0, over trees with one leaf label and one inner label.
#![tactic(auto)]

ghost use Rattle.std.specs.Prelude.{◌≤◌, length, IfOk};

use anyhow::anyhow;
use rack::{Atom, Working, atom, guarantee, list, make};
use trees::Refusal;

// The most codes that a table may come from.
const MOST: usize = 4;

const SLOTS: usize = 2;

// The bytes of a slot, as a constant for the arrays: the number of states, the final states, two leaf cells and two squares
// of inner cells.
const WIDTH: usize = 1 + MOST + 2 + 2 * MOST * MOST;

// Fills slot 0 of a new rack, and writes its listing to the front of the buffer.
fn write_listing(buffer: &mut [u8]) -> Result<&[u8], Refusal>
    ensures { IfOk result (λ listing. length listing.now ≤ length buffer.old) }
{
    let mut store = [0u8; SLOTS * WIDTH];
    let mut codes = [0u64; MOST];
    let mut cells = [0u8; WIDTH];
    let mut classes = [0u8; 2 * MOST];
    let rack = make(1, 1, 1, MOST, SLOTS, &mut store)?;
    // its contract says what is guaranteed of this rack, as of every one
    guarantee();
    let working = Working {
        codes: &mut codes,
        cells: &mut cells,
        classes: &mut classes,
    };
    atom(rack, &mut store, 0, Atom::Sing(0), working)?;
    let length = list(rack, &store, 0, buffer)?;
    Ok(&buffer[..length])
}

fn main(rt: HostRuntime) -> anyhow::Result<()> {
    let mut buffer = [0u8; 128];
    let listing = write_listing(&mut buffer).map_err(|refusal| anyhow!("{refusal}"))?;
    rt.write_all(listing)?;
    Ok(())
}
