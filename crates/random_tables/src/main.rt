// Compares built tables with brute force: of random machines byte for byte, and of random rules by the verdicts on random
// trees. Every run draws the same cases; a mismatch would change what is printed.
#![tactic(auto)]

mod bit_set;
mod brute;
mod formula;
mod machine_cases;
mod random;
mod small_tree;
mod verdicts;

use images::Fault;
use machine_cases::{Tally, try_machines};
use random::Random;
use std::io;
use verdicts::{Verdicts, try_verdicts};

fn show_machines(rt: &HostRuntime) -> io::Result<()> {
    let Tally {
        cases,
        too_many,
        merged,
        mismatches,
        states,
    } = try_machines(rt.alloc(), &mut Random::new(20_250_101), 6000)?;
    println!(rt;
        "random machines: {cases} cases, {too_many} too many, {merged} with codes alike, {mismatches} mismatches"
    )?;
    for (states, tables) in states.iter().enumerate() {
        println!(rt; "  {states} states: {tables} tables")?;
    }
    Ok(())
}

fn show_verdicts(rt: &HostRuntime) -> Result<(), Fault> {
    let Verdicts {
        rules,
        unbuilt,
        states,
        most_states,
        yes,
        no,
        mismatches,
    } = try_verdicts(rt.alloc(), &mut Random::new(77_777), 200, 20)?;
    println!(rt;
        "random rules: {rules} rules, {unbuilt} too many, {states} states in all, {most_states} at most"
    )?;
    println!(rt; "  verdicts: {yes} yes, {no} no, {mismatches} mismatches")?;
    Ok(())
}

fn main(rt: HostRuntime) -> Result<(), Fault> {
    show_machines(&rt)?;
    show_verdicts(&rt)
}
