// A machine's table, built in lent memory: its codes are discovered, refined into classes, and written as an image.
ghost use Rattle.std.specs.Prelude.{◌≡◌, ◌*◌, ◌≤◌, true, false, length, replicate, IfOk, MatchOption, MatchResult};
ghost use Rattle.tables.specs.Tables.{TooMany as TooManyCodes};
ghost use Rattle.build.specs.Discovery.{Ready};
ghost use Rattle.build.specs.Imaging.{serves, Built};
ghost use Rattle.build.specs.Building.{Builds, Leaves, Answers};

use crate::discover::discover;
use crate::found::TooMany;
use crate::image::{States, find_firsts};
use crate::refine::refine;
use crate::unbuilt::Unbuilt;
use lent::Cleared;
use machine::Machine;
use slots::Layout;

// Builds in the first cells, where the codes found are not too many.
// Here and below the three slices stand apart: each is cut or guarded by itself on the way down.
fn build_found<M: Machine>(
    machine: &M,
    layout: Layout,
    codes: &mut [u64],
    cells: &mut [u8],
    classes: &mut [u8],
) -> Result<u8, TooMany>
    requires ready { Ready (M.Machine.meaning machine.now) layout (length codes.old) (length cells.old) }
    requires lent { 2 * layout.most ≤ length classes.old }
    ensures { MatchResult result (λ k. Built (M.Machine.meaning machine.now) layout.most k cells.new) (λ _. TooManyCodes (M.Machine.meaning machine.now) layout.most) }
{
    let len = discover(machine, layout, codes, cells)?;
    let codes = &codes[..len];
    let (classes, rest) = classes.split_at_mut(len);
    let next = &mut rest[..len];
    let count = refine(machine, layout, codes, cells, classes, next);
    let firsts = &mut next[..usize::from(count)];
    find_firsts(classes, firsts);
    let states = States {
        layout,
        codes,
        classes,
        firsts,
    };
    states.put_table(machine, cells);
    Ok(count)
}

// The layout to build in, or none where the numbers or the memory do not serve.
fn served<M: Machine>(
    machine: &M,
    most: usize,
    codes: &[u64],
    cells: &[u8],
    classes: &[u8],
) -> Option<Layout>
    ensures { MatchOption result (serves (M.Machine.meaning machine.now) most (length codes.now) (length cells.now) (length classes.now) ≡ false) (λ layout. (serves (M.Machine.meaning machine.now) most (length codes.now) (length cells.now) (length classes.now) ≡ true) × (layout.most ≡ most) × Ready (M.Machine.meaning machine.now) layout (length codes.now) (length cells.now) × (2 * most ≤ length classes.now)) }
{
    let layout = Layout::new(machine.shape(), most)?;
    if codes.len() < most || cells.len() < layout.width() || classes.len() < 2 * most {
        return None;
    }
    Some(layout)
}

// Leaves the image of the machine's table in the first cells, and says how many states it has.
// Unserved where the shape is outside its limits, `most` is not 1 to 32, or too little memory is lent: `most` codes, the
// bytes of the image, and two classes for each of `most` codes.
// What it leaves in the other lent memory is free: none is cleared, so what is lent past the need costs no time.
pub fn build_table<M: Machine>(
    machine: &M,
    most: usize,
    codes: &mut [u64],
    cells: &mut [u8],
    classes: &mut [u8],
) -> Result<u8, Unbuilt>
    ensures { Builds (M.Machine.meaning machine.now) most (length codes.old) (length cells.old) (length classes.old) cells.new result }
{
    let layout = served(machine, most, codes, cells, classes).ok_or(Unbuilt::Unserved)?;
    build_found(machine, layout, codes, cells, classes).map_err(|_| Unbuilt::TooMany)
}

// Builds in cells that are all the image's: where there are too many codes, what discovery wrote is cleared.
fn build_image<M: Machine>(
    machine: &M,
    layout: Layout,
    codes: &mut [u64],
    cells: &mut [u8],
    classes: &mut [u8],
) -> Result<u8, Unbuilt>
    requires ready { Ready (M.Machine.meaning machine.now) layout (length codes.old) (length cells.old) }
    requires lent { 2 * layout.most ≤ length classes.old }
    ensures { Leaves (M.Machine.meaning machine.now) layout.most (length cells.old) cells.new result }
{
    match build_found(machine, layout, codes, cells, classes) {
        Ok(states) => Ok(states),
        Err(TooMany) => {
            cells.fill(0);
            Err(Unbuilt::TooMany)
        }
    }
}

// Builds in the first cells, where the numbers and the memory serve.
fn build_served<M: Machine>(
    machine: &M,
    most: usize,
    codes: &mut [u64],
    cells: &mut [u8],
    classes: &mut [u8],
) -> Result<u8, Unbuilt>
    ensures { Answers (M.Machine.meaning machine.now) most (length codes.old) (length classes.old) cells.old cells.new result }
{
    let layout = served(machine, most, codes, cells, classes).ok_or(Unbuilt::Unserved)?;
    let width = layout.width();
    build_image(machine, layout, codes, &mut cells[..width], classes)
}

// Leaves the image of the machine's table in the first cells, and says how many states it has. Codes and classes end all
// zeros, and on too many codes so do the image's cells; the other cells stay.
// Unserved, with every cell as it was, where the shape is outside its limits, `most` is not 1 to 32, or too little memory is
// lent: `most` codes, the bytes of the image, and two classes for each of `most` codes.
pub fn build_cleared<M: Machine>(
    machine: &M,
    most: usize,
    codes: &mut [u64],
    cells: &mut [u8],
    classes: &mut [u8],
) -> Result<u8, Unbuilt>
    ensures answer { Answers (M.Machine.meaning machine.now) most (length codes.old) (length classes.old) cells.old cells.new result }
    ensures built { IfOk result (λ k. Built (M.Machine.meaning machine.now) most k cells.new) }
    ensures codes { codes.new ≡ replicate (length codes.old) 0 }
    ensures classes { classes.new ≡ replicate (length classes.old) 0 }
{
    let found = Cleared { cells: &mut *codes };
    let parted = Cleared {
        cells: &mut *classes,
    };
    build_served(machine, most, found.cells, cells, parted.cells)
}
