use crate::parity::Parity;
use atoms::{Lab, Left, Right, Sing, Sub};
use layers::{Both, Either, Exists, Not};
use machine::Machine;
use machines::{SlotTable, Table, judge};
use std::test::Fail;
use trees::{Refusal, Shape};

const SMALL: Shape = Shape {
    leaves: 2,
    inners: 1,
    tracks: 2,
};

// Leaves 0 in track 0 and 1 in track 1, under a node in no track.
const PAIR: [u8; 6] = [0, 1, 1, 2, 2, 0];

// A leaf in track 1 and one in no track, under a node in track 0.
const CHILD: [u8; 6] = [0, 2, 1, 0, 2, 1];

fn holds<M: Machine>(machine: &M, listing: &[u8]) -> Result<bool, Refusal> {
    let mut stack = [0u64; 8];
    judge(machine, listing, &mut stack)
}

#[test]
fn atoms_on_two_trees(rt: HostRuntime) -> Result<(), Fail> {
    assert!(rt; !holds(&Sub::new(SMALL, 0, 1)?, &PAIR)?);
    assert!(rt; holds(&Sing::new(SMALL, 0)?, &PAIR)?);
    assert!(rt; holds(&Lab::new(SMALL, 0, 0)?, &PAIR)?);
    assert!(rt; !holds(&Lab::new(SMALL, 1, 0)?, &PAIR)?);
    assert!(rt; holds(&Left::new(SMALL, 0, 1)?, &CHILD)?);
    assert!(rt; !holds(&Right::new(SMALL, 0, 1)?, &CHILD)?);
    Ok(())
}

#[test]
fn not_over_some(rt: HostRuntime) -> Result<(), Fail> {
    // some set has exactly one node, whatever the track holds
    let some = Exists::new(Sing::new(SMALL, 0)?, 0)?;
    assert!(rt; holds(&some, &[0, 0])?);
    assert!(rt; !holds(&Not::new(&some), &[0, 0])?);
    // the one node of track 0 has a left child with label 0
    let child = Both::new(Left::new(SMALL, 0, 1)?, Lab::new(SMALL, 1, 0)?)?;
    let has = Exists::new(child, 1)?;
    assert!(rt; holds(&has, &CHILD)?);
    assert!(rt; !holds(&has, &PAIR)?);
    assert!(rt; holds(&Not::new(has), &PAIR)?);
    // a left child with label 1 instead
    assert!(rt; !holds(&has, &[1, 0, 0, 0, 2, 1])?);
    Ok(())
}

// Whether inner nodes with these marks get the same codes, whatever the parts' codes below 16 are.
fn alike<M: Machine>(machine: &M, marks: u8, others: u8) -> bool {
    (0..16u64).all(|left| {
        (0..16u64).all(|right| {
            machine.inner(2, marks, left, right) == machine.inner(2, others, left, right)
        })
    })
}

#[test]
fn some_is_blind_to_its_track(rt: HostRuntime) -> Result<(), Fail> {
    let some = Exists::new(Left::new(SMALL, 0, 1)?, 1)?;
    for marks in 0..2u8 {
        assert_eq!(rt; some.leaf(0, marks), some.leaf(0, marks + 2));
        assert!(rt; alike(&some, marks, marks + 2));
    }
    Ok(())
}

#[test]
fn a_machine_of_another_crate(rt: HostRuntime) -> Result<(), Fail> {
    let odd = Parity { shape: SMALL };
    assert!(rt; holds(&odd, &[0, 0])?);
    assert!(rt; !holds(&odd, &PAIR)?);
    let either = Either::new(&odd, Sing::new(SMALL, 0)?)?;
    assert!(rt; holds(&either, &PAIR)?);
    assert!(rt; !holds(&Both::new(odd, Not::new(either))?, &[0, 0])?);
    Ok(())
}

// Whether codes stay below a count of 1 to 32, and the table accepts nothing.
fn stands_idle<M: Machine>(table: &M) -> Result<bool, Refusal> {
    let mut stack = [0u8; 2];
    let count = table.count();
    Ok(
        (1..=32).contains(&count)
            && table.leaf(1, 3) < count
            && table.inner(2, 3, 0, 0) < count
            && !judge(table, &PAIR, &mut stack)?,
    )
}

#[test]
fn a_table_of_any_bytes(rt: HostRuntime) -> Result<(), Fail> {
    let bytes = [200u8; 60];
    for most in 0..40usize {
        assert!(rt; stands_idle(&Table::new(&bytes, SMALL, most))?, "{most}");
        assert!(rt;
            stands_idle(&SlotTable::new(&bytes, SMALL, most))?,
            "{most}"
        );
    }
    Ok(())
}
