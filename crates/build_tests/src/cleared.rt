// Tests of tables built with all lent memory said.
use atoms::{Left, Sing};
use build::{Unbuilt, build_cleared};
use layers::{Both, Exists, Not};
use machine::Machine;
use machines::SlotTable;
use std::test::Fail;
use trees::Shape;

const LEAST: Shape = Shape {
    leaves: 1,
    inners: 1,
    tracks: 1,
};

const SMALL: Shape = Shape {
    leaves: 2,
    inners: 1,
    tracks: 2,
};

// Builds with memory enough for 16 states.
fn build<M: Machine>(machine: &M, most: usize, cells: &mut [u8]) -> Result<u8, Unbuilt> {
    let mut codes = [7u64; 16];
    let mut classes = [7u8; 32];
    build_cleared(machine, most, &mut codes, cells, &mut classes)
}

// The inner cells of the table of "exactly one", a row for each left state: of a node outside the track, then of one in it.
const INNERS: [[u8; 4]; 8] = [
    [0, 1, 2, 0],
    [1, 2, 2, 0],
    [2, 2, 2, 0],
    [0, 0, 0, 0],
    [1, 2, 2, 0],
    [2, 2, 2, 0],
    [2, 2, 2, 0],
    [0, 0, 0, 0],
];

#[test]
fn the_table_of_exactly_one(rt: HostRuntime) -> Result<(), Fail> {
    let mut cells = [7u8; 42];
    let built = build(&Sing::new(LEAST, 0)?, 4, &mut cells);
    assert!(rt; built == Ok(3));
    // three states, of which the second is final, and the leaf cells
    assert!(rt; cells[..7] == [3, 0, 1, 0, 0, 0, 1]);
    for (i, row) in INNERS.iter().enumerate() {
        assert!(rt; cells[7 + 4 * i..11 + 4 * i] == row[..]);
    }
    // past the image
    assert!(rt; cells[39..] == [7, 7, 7]);
    Ok(())
}

#[test]
fn memory_is_cleared(rt: HostRuntime) -> Result<(), Fail> {
    let machine = Sing::new(LEAST, 0)?;
    let mut codes = [7u64; 5];
    let mut cells = [7u8; 39];
    let mut classes = [7u8; 9];
    let built = build_cleared(&machine, 4, &mut codes, &mut cells, &mut classes);
    assert!(rt; built == Ok(3));
    assert!(rt; codes == [0; 5]);
    assert!(rt; classes == [0; 9]);
    Ok(())
}

#[test]
fn too_many_codes(rt: HostRuntime) -> Result<(), Fail> {
    let mut cells = [7u8; 16];
    let built = build(&Sing::new(LEAST, 0)?, 2, &mut cells);
    assert!(rt; built == Err(Unbuilt::TooMany));
    assert!(rt; cells == [0, 0, 0, 0, 0, 0, 0, 0, 0, 0, 0, 0, 0, 7, 7, 7]);
    Ok(())
}

#[test]
fn what_does_not_serve(rt: HostRuntime) -> Result<(), Fail> {
    let machine = Sing::new(LEAST, 0)?;
    let mut cells = [7u8; 38];
    assert!(rt; build(&machine, 4, &mut cells) == Err(Unbuilt::Unserved));
    assert!(rt; build(&machine, 0, &mut cells) == Err(Unbuilt::Unserved));
    assert!(rt; build(&machine, 33, &mut cells) == Err(Unbuilt::Unserved));
    assert!(rt; cells == [7; 38]);
    Ok(())
}

#[test]
fn codes_and_states(rt: HostRuntime) -> Result<(), Fail> {
    let mut cells = [0u8; 1049];
    let both = Both::new(Sing::new(SMALL, 0)?, Sing::new(SMALL, 1)?)?;
    assert!(rt; build(&both, 8, &mut cells) == Err(Unbuilt::TooMany));
    assert!(rt; build(&both, 9, &mut cells) == Ok(5));
    let some = Exists::new(Sing::new(SMALL, 0)?, 0)?;
    assert!(rt; build(&some, 16, &mut cells) == Ok(1));
    Ok(())
}

#[test]
fn a_table_of_a_table(rt: HostRuntime) -> Result<(), Fail> {
    let mut image = [0u8; 273];
    let mut again = [7u8; 273];
    assert!(rt; build(&Left::new(SMALL, 0, 1)?, 8, &mut image) == Ok(4));
    let table = SlotTable::new(&image, SMALL, 8);
    assert!(rt; build(&table, 8, &mut again) == Ok(4));
    assert!(rt; again == image);
    Ok(())
}

#[test]
fn not_over_some(rt: HostRuntime) -> Result<(), Fail> {
    let mut cells = [0u8; 273];
    let mut others = [0u8; 273];
    let some = Exists::new(Left::new(SMALL, 0, 1)?, 0)?;
    assert!(rt; build(&some, 8, &mut cells) == Ok(4));
    assert!(rt; build(&Not::new(&some), 8, &mut others) == Ok(4));
    // the other states are final, and the cells are the same
    assert!(rt; cells[..9] == [4, 0, 0, 0, 1, 0, 0, 0, 0]);
    assert!(rt; others[..9] == [4, 1, 1, 1, 0, 0, 0, 0, 0]);
    assert!(rt; cells[9..] == others[9..]);
    Ok(())
}

#[test]
fn some_is_blind_to_its_track(rt: HostRuntime) -> Result<(), Fail> {
    let mut cells = [0u8; 273];
    let some = Exists::new(Left::new(SMALL, 0, 1)?, 0)?;
    assert!(rt; build(&some, 8, &mut cells).is_ok());
    for label in 0..2usize {
        assert_eq!(rt; cells[9 + 4 * label], cells[10 + 4 * label]);
        assert_eq!(rt; cells[11 + 4 * label], cells[12 + 4 * label]);
    }
    assert!(rt; cells[17..81] == cells[81..145]);
    assert!(rt; cells[145..209] == cells[209..273]);
    Ok(())
}
