// The words of this program beside those that it shares.
use console::Fault;
use std::str::FromStr;

#[derive(Clone, Copy)]
pub enum Word {
    List,
}

impl FromStr for Word {
    type Err = Fault;

    fn from_str(word: &str) -> Result<Word, Fault> {
        match word {
            "list" => Ok(Word::List),
            _ => Err(Fault::UnknownWord("shape, stack, rule, tree and list")),
        }
    }
}
