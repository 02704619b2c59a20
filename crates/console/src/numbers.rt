// Decimal numbers parted by blanks or commas.
ghost use Rattle.std.specs.Prelude.{◌≤◌, length, IfOk, All};

use crate::fault::Fault;
use std::alloc::Global;

fn is_gap(c: char) -> bool {
    c == ',' || c.is_whitespace()
}

// The numbers of a text: at most `most` of them, none above `largest`.
pub(crate) fn numbers(
    heap: Global,
    text: &str,
    most: usize,
    largest: usize,
) -> Result<Vec<usize>, Fault>
    ensures most { IfOk result (λ all. length all.items ≤ most) }
    ensures largest { IfOk result (λ all. All (λ n. n ≤ largest) all.items) }
{
    let mut all = Vec::new(heap);
    for word in text.split(is_gap).filter(|word| !word.is_empty()) {
        let number = word.parse()?;
        if number > largest {
            return Err(Fault::TooLarge);
        }
        if all.len() >= most {
            return Err(Fault::TooMany);
        }
        all.push(number)?;
    }
    Ok(all)
}
