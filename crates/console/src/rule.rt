// The rules that each of the programs knows by name.
ghost use Rattle.console.specs.Rules.{Parses};

use crate::fault::Fault;
use std::str::FromStr;

#[derive(Clone, Copy, Debug, PartialEq, Eq)]
pub enum Rule {
    // track 0 has exactly one node
    One,
    // every node of track 0 is in track 1, or track 0 has exactly one node
    Covered,
    // some node but not exactly one is in track 0
    Several,
    // the one node of track 0 has a left child with label 0
    Guarded,
}

impl FromStr for Rule {
    type Err = Fault;

    ghost from_str_gives = { Parses };

    fn from_str(name: &str) -> Result<Rule, Fault> {
        match name {
            "one" => Ok(Rule::One),
            "covered" => Ok(Rule::Covered),
            "several" => Ok(Rule::Several),
            "guarded" => Ok(Rule::Guarded),
            _ => Err(Fault::NoRule("one, covered, several, guarded and none")),
        }
    }
}
