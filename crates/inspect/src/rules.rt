// The rules, each built from atoms and layers.
use atoms::{Lab, Left, Sing, Sub};
use console::Rule;
use layers::{Both, Either, Exists, Not};
use machines::judge;
use trees::{Refusal, Shape};

// Whether the rule holds of the tree whose listing this is.
pub fn check(rule: Rule, shape: Shape, listing: &[u8], stack: &mut [u64]) -> Result<bool, Refusal> {
    match rule {
        Rule::One => judge(&Sing::new(shape, 0)?, listing, stack),
        Rule::Covered => judge(
            &Either::new(Sub::new(shape, 0, 1)?, Sing::new(shape, 0)?)?,
            listing,
            stack,
        ),
        Rule::Several => several(shape, listing, stack),
        Rule::Guarded => {
            let child = Both::new(Left::new(shape, 0, 1)?, Lab::new(shape, 1, 0)?)?;
            judge(&Exists::new(child, 1)?, listing, stack)
        }
    }
}

fn several(shape: Shape, listing: &[u8], stack: &mut [u64]) -> Result<bool, Refusal> {
    // some one node of track 1 is in track 0, and track 0 is not that node alone
    let member = Exists::new(Both::new(Sing::new(shape, 1)?, Sub::new(shape, 1, 0)?)?, 1)?;
    judge(
        &Both::new(member, Not::new(Sing::new(shape, 0)?))?,
        listing,
        stack,
    )
}
