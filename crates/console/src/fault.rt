// Why a line of input is refused.
ghost use Rattle.std.specs.Prelude.{◌≡◌, Some};
ghost use Rattle.std.specs.Str.Parse.{error_kind};
ghost use Rattle.console.specs.Faults.{fault_of, text};
ghost use Rattle.console.specs.declared.fault.Fault.TheVariants.{NoMemory};

use std::alloc::{AllocError, AllocFailed};
use std::error::Error;
use std::fmt;
use std::num::{IntErrorKind, ParseIntError};

#[derive(Clone, Copy, Debug, PartialEq, Eq)]
pub enum Fault {
    // with the words that the program knows
    UnknownWord(&'static str),
    NotANumber,
    TooLarge,
    TooMany,
    TooFew,
    NoShape,
    // with the names that the program knows
    NoRule(&'static str),
    NoMemory,
}

// Conversions and texts are written out, as contracts name what they give: a derive does not say it.
impl From<ParseIntError> for Fault {
    ghost from_gives = { λ error fault. fault ≡ fault_of (error_kind error) };

    fn from(error: ParseIntError) -> Fault {
        match error.kind() {
            IntErrorKind::PosOverflow => Fault::TooLarge,
            _ => Fault::NotANumber,
        }
    }
}

impl From<AllocError> for Fault {
    ghost from_gives = { λ _ fault. fault ≡ NoMemory };

    fn from(_: AllocError) -> Fault {
        Fault::NoMemory
    }
}

impl<T: Drop> From<AllocFailed<T>> for Fault {
    ghost from_gives = { λ _ fault. fault ≡ NoMemory };

    fn from(_: AllocFailed<T>) -> Fault {
        Fault::NoMemory
    }
}

impl fmt::Display for Fault {
    ghost output = { λ fault. Some (text fault) };

    fn fmt<W: fmt::Write>(&self, f: &mut fmt::Formatter<W>) -> fmt::Result {
        match self {
            Fault::UnknownWord(words) => write!(f, "bad line: it begins with none of {words}"),
            Fault::NotANumber => f.write_str("bad line: not a decimal number"),
            Fault::TooLarge => f.write_str("bad line: a number is too large"),
            Fault::TooMany => f.write_str("bad line: too many numbers"),
            Fault::TooFew => f.write_str("bad line: too few numbers"),
            Fault::NoShape => f.write_str(
                "bad line: a shape has 1 to 8 leaf labels, 1 to 4 inner labels and 1 to 6 tracks",
            ),
            Fault::NoRule(names) => write!(f, "bad line: a rule is one of {names}"),
            Fault::NoMemory => f.write_str("out of memory"),
        }
    }
}

impl Error for Fault {}
