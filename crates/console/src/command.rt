// A line of input: a word, then what the word takes.
ghost use Rattle.std.specs.Prelude.{◌≡◌, ◌*◌, ◌≤◌, [], length, codes, Ok, IfOk, IfErr};
ghost use Rattle.std.specs.Str.{trim};
ghost use Rattle.trees.specs.Shapes.{Limited};
ghost use Rattle.console.specs.Lines.{word, rest, Names, Unnamed, Says};

use crate::fault::Fault;
use crate::numbers::numbers;
use std::alloc::Global;
use std::str::FromStr;
use trees::{LONGEST, Shape};

// A line, for a program with rules `R` and words of its own `W`.
#[derive(Drop)]
pub enum Command<R, W> {
    Nothing,
    Shape(Shape),
    Stack(usize),
    Rule(Option<R>),
    Tree(Vec<u8>),
    Own(W),
}

fn shape(heap: Global, text: &str) -> Result<Shape, Fault>
    ensures { IfOk result Limited }
{
    match *numbers(heap, text, 3, usize::MAX)?.as_slice() {
        [leaves, inners, tracks] => Shape::new(leaves, inners, tracks).ok_or(Fault::NoShape),
        _ => Err(Fault::TooFew),
    }
}

fn places(heap: Global, text: &str) -> Result<usize, Fault>
    ensures { IfOk result (λ places. places ≤ LONGEST) }
{
    match *numbers(heap, text, 1, LONGEST)?.as_slice() {
        [places] => Ok(places),
        _ => Err(Fault::TooFew),
    }
}

fn rule<R: FromStr<Err = Fault>>(text: &str) -> Result<Option<R>, Fault>
    ensures names { IfOk result (Names R.from_str_gives text.now) }
    ensures unnamed { IfErr result (Unnamed R.from_str_gives text.now) }
{
    match text.trim() {
        "none" => Ok(None),
        name => Ok(Some(name.parse()?)),
    }
}

fn bytes(heap: Global, text: &str) -> Result<Vec<u8>, Fault>
    ensures { IfOk result (λ bytes. length bytes.items ≤ 4 * LONGEST) }
{
    numbers(heap, text, 4 * LONGEST, usize::from(u8::MAX))?
        .iter()
        .map(|n| u8::try_from(*n).map_err(|_| Fault::TooLarge))
        .try_collect(heap)
}

fn own<W: FromStr<Err = Fault> + Drop>(heap: Global, word: &str, text: &str) -> Result<W, Fault>
    ensures { IfOk result (λ own. W.from_str_gives word.now (Ok own)) }
{
    let own = word.parse()?;
    numbers(heap, text, 0, usize::MAX)?;
    Ok(own)
}

// The first word of a line, and what follows the blank behind it.
fn cut(line: &str) -> (&str, &str)
    ensures word { result.0.now ≡ word line.now }
    ensures rest { result.1.now ≡ rest line.now }
{
    line.split_once(' ').unwrap_or((line, ""))
}

// Reads a line. A word of the program's own takes no numbers.
pub fn read_line<R: FromStr<Err = Fault>, W: FromStr<Err = Fault> + Drop>(
    heap: Global,
    line: &str,
) -> Result<Command<R, W>, Fault>
    ensures says { IfOk result (Says R.from_str_gives W.from_str_gives (trim line.now)) }
    ensures blank { trim line.now ≡ [] → result ≡ Ok Command.Nothing }
    ensures rule { word (trim line.now) ≡ codes "rule" → IfErr result (Unnamed R.from_str_gives (rest (trim line.now))) }
{
    let line = line.trim();
    if line.is_empty() {
        return Ok(Command::Nothing);
    }
    let (word, rest) = cut(line);
    match word {
        "shape" => Ok(Command::Shape(shape(heap, rest)?)),
        "stack" => Ok(Command::Stack(places(heap, rest)?)),
        "rule" => Ok(Command::Rule(rule(rest)?)),
        "tree" => Ok(Command::Tree(bytes(heap, rest)?)),
        _ => Ok(Command::Own(own(heap, word, rest)?)),
    }
}
