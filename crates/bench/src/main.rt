// Builds the tables of some rules at a small size and at the largest, and prints for each how many states it has and a
// checksum of its image. With the argument `times` it prints the best of three times as well.
#![tactic(auto)]

mod rules;
mod timing;

use images::Fault;
use slots::Layout;
use std::env;
use timing::Bench;
use trees::Shape;

const SMALL: Layout = Layout {
    shape: Shape {
        leaves: 2,
        inners: 1,
        tracks: 2,
    },
    most: 9,
};

const LARGEST: Layout = Layout {
    shape: Shape {
        leaves: 8,
        inners: 4,
        tracks: 6,
    },
    most: 32,
};

fn main(rt: HostRuntime) -> Result<(), Fault> {
    let timed = env::args(&rt)?.skip(1).any(|word| word.as_str() == "times");
    println!(rt; "2 leaf labels, 1 inner label, 2 tracks, 9 states; tracks are taken modulo 2")?;
    let small = Bench {
        rt: &rt,
        layout: SMALL,
        timed,
    };
    small.show_all()?;
    println!(rt; "8 leaf labels, 4 inner labels, 6 tracks, 32 states")?;
    let largest = Bench {
        rt: &rt,
        layout: LARGEST,
        timed,
    };
    largest.show_all()
}
