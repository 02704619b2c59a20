// The rules by name, each put together on a bench from the rack's calls.
use crate::bench::{Bench, Slot};
use console::Fault;
use rack::Atom;
use std::str::FromStr;
use thiserror::Error;
use trees::Refusal;

#[derive(Clone, Copy)]
pub enum Rule {
    Shared(console::Rule),
    // every coil has a stop contact in its series
    Stopped,
}

impl FromStr for Rule {
    type Err = Fault;

    fn from_str(name: &str) -> Result<Rule, Fault> {
        match name {
            "stopped" => Ok(Rule::Stopped),
            _ => name.parse().map(Rule::Shared).map_err(|_: Fault| Fault::NoRule(
                "one, covered, several, guarded, stopped and none",
            )),
        }
    }
}

// Why a rule cannot be made for a shape.
#[derive(Clone, Copy, Debug, Error)]
pub enum Denial {
    #[error("{0}")]
    Refused(#[from] Refusal),
    #[error("it speaks of programs with two leaf labels, contact 0 and coil 1")]
    NoLadder,
}

// Puts the table of the rule in a slot of the bench, which is cleared first.
pub fn make_rule(bench: &mut Bench, rule: Rule) -> Result<Slot, Denial> {
    bench.clear()?;
    match rule {
        Rule::Shared(rule) => Ok(shared(bench, rule)?),
        Rule::Stopped if bench.shape().leaves != 2 => Err(Denial::NoLadder),
        Rule::Stopped => Ok(stopped(bench)?),
    }
}

fn shared(bench: &mut Bench, rule: console::Rule) -> Result<Slot, Refusal> {
    match rule {
        console::Rule::One => bench.atom(Atom::Sing(0)),
        console::Rule::Covered => covered(bench),
        console::Rule::Several => several(bench),
        console::Rule::Guarded => guarded(bench),
    }
}

fn covered(bench: &mut Bench) -> Result<Slot, Refusal> {
    let inside = bench.atom(Atom::Sub(0, 1))?;
    let one = bench.atom(Atom::Sing(0))?;
    bench.either(inside, one)
}

fn several(bench: &mut Bench) -> Result<Slot, Refusal> {
    // some one node of track 1 is in track 0, and track 0 is not that node alone
    let node = bench.atom(Atom::Sing(1))?;
    let inside = bench.atom(Atom::Sub(1, 0))?;
    let member = bench.both(node, inside)?;
    let member = bench.some(member, 1)?;
    let one = bench.atom(Atom::Sing(0))?;
    let not_one = bench.not(one)?;
    bench.both(member, not_one)
}

fn guarded(bench: &mut Bench) -> Result<Slot, Refusal> {
    let child = bench.atom(Atom::Left(0, 1))?;
    let labelled = bench.atom(Atom::Lab(1, 0))?;
    let guard = bench.both(child, labelled)?;
    bench.some(guard, 1)
}

// The labels of a ladder program. Any other inner label is a parallel.
const CONTACT: usize = 0;

const COIL: usize = 1;

const SERIES: usize = 2;

// The track of the stop marks, and those of the nodes that the rule speaks of.
const MARKED: usize = 0;

const THE_COIL: usize = 1;

const THE_SERIES: usize = 2;

const THE_STOP: usize = 3;

// There is no coil that has no stop contact in its series.
fn stopped(bench: &mut Bench) -> Result<Slot, Refusal> {
    let series = in_stopped_series(bench)?;
    let unstopped = bench.not(series)?;
    let node = bench.atom(Atom::Sing(THE_COIL))?;
    let labelled = bench.atom(Atom::Lab(THE_COIL, COIL))?;
    let coil = bench.both(node, labelled)?;
    let fault = bench.both(coil, unstopped)?;
    let faulty = bench.some(fault, THE_COIL)?;
    bench.not(faulty)
}

// Some series node is above the coil and above a stop contact. That it is one node, Below says.
fn in_stopped_series(bench: &mut Bench) -> Result<Slot, Refusal> {
    let stop = above_stop(bench)?;
    let labelled = bench.atom(Atom::Lab(THE_SERIES, SERIES))?;
    let series = bench.both(stop, labelled)?;
    let above = bench.atom(Atom::Below(THE_SERIES, THE_COIL))?;
    let series = bench.both(series, above)?;
    bench.some(series, THE_SERIES)
}

// Some contact with a stop mark hangs below the series node.
fn above_stop(bench: &mut Bench) -> Result<Slot, Refusal> {
    let marked = bench.atom(Atom::Sub(THE_STOP, MARKED))?;
    let labelled = bench.atom(Atom::Lab(THE_STOP, CONTACT))?;
    let stop = bench.both(marked, labelled)?;
    let above = bench.atom(Atom::Below(THE_SERIES, THE_STOP))?;
    let stop = bench.both(stop, above)?;
    bench.some(stop, THE_STOP)
}
