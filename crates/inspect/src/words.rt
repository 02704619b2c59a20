// The words of this program alone: there are none.
use console::Fault;
use std::str::FromStr;

#[derive(Clone, Copy)]
pub enum NoWord {}

impl FromStr for NoWord {
    type Err = Fault;

    fn from_str(_: &str) -> Result<NoWord, Fault> {
        Err(Fault::UnknownWord("shape, stack, rule and tree"))
    }
}
