// Why a call is refused: the reason, the place, and the layer where the refusal arose.
ghost use Rattle.std.specs.Prelude.{◌≡◌, ◌==◌};
ghost use Rattle.trees.specs.Refusals.{number};

use std::fmt;

// Each reason has its number.
#[derive(PartialEq, Eq, Clone, Copy, Debug)]
pub enum Reason {
    OutsideLimits = 1,
    StoreTooShort = 2,
    NoSuchSlot = 3,
    SlotTaken = 4,
    SlotEmpty = 5,
    NoSuchTrack = 6,
    NoSuchLabel = 7,
    MemoryTooShort = 8,
    TooManyStates = 9,
    BufferTooShort = 10,
    ShapesDiffer = 11,
    CountTooLarge = 12,
    BadLength = 13,
    UnknownLabel = 14,
    UnknownMarks = 15,
    MissingParts = 16,
    StackFull = 17,
    NotOneTree = 18,
}

#[derive(Clone, Copy, PartialEq, Eq, Debug)]
pub enum Origin {
    Trees,
    Machines,
    Rack,
}

// `place` is a node's number from 0 where the reason is about a node, the number of nodes for `NotOneTree`, else 0: each
// refusal has a number, a place and an origin, whatever it is about.
#[derive(Clone, Copy, PartialEq, Eq, Debug)]
pub struct Refusal {
    pub reason: Reason,
    pub place: usize,
    pub origin: Origin,
}

impl Reason {
    pub fn number(self) -> u8
        ensures { result ≡ number self }
    {
        self as u8
    }

    // Reasons are equal exactly where their numbers are.
    pub fn is(self, other: Reason) -> bool
        ensures { result ≡ (number self == number other) }
    {
        self == other
    }
}

// The texts are written out: a derive of them would put a crate of macros below every other.
impl fmt::Display for Reason {
    fn fmt<W: fmt::Write>(&self, f: &mut fmt::Formatter<W>) -> fmt::Result {
        f.write_str(match self {
            Reason::OutsideLimits => "a number is outside its limits",
            Reason::StoreTooShort => "the store is too short",
            Reason::NoSuchSlot => "there is no such slot",
            Reason::SlotTaken => "the result slot is taken",
            Reason::SlotEmpty => "the slot is empty",
            Reason::NoSuchTrack => "there is no such track",
            Reason::NoSuchLabel => "there is no such label",
            Reason::MemoryTooShort => "there is too little working memory",
            Reason::TooManyStates => "there are too many states",
            Reason::BufferTooShort => "the answer buffer is too short",
            Reason::ShapesDiffer => "the shapes differ",
            Reason::CountTooLarge => "the count is too large",
            Reason::BadLength =>
                "the listing is longer than 8192 bytes or has an odd number of them",
            Reason::UnknownLabel => "the node has a label that the shape lacks",
            Reason::UnknownMarks => "the node has a mark that the shape lacks",
            Reason::MissingParts => "the inner node has fewer than two open parts under it",
            Reason::StackFull => "the stack has no free place for the leaf",
            Reason::NotOneTree => "the listing does not end in exactly one tree",
        })
    }
}

impl fmt::Display for Origin {
    fn fmt<W: fmt::Write>(&self, f: &mut fmt::Formatter<W>) -> fmt::Result {
        f.write_str(match self {
            Origin::Trees => "trees",
            Origin::Machines => "machines",
            Origin::Rack => "rack",
        })
    }
}

impl fmt::Display for Refusal {
    fn fmt<W: fmt::Write>(&self, f: &mut fmt::Formatter<W>) -> fmt::Result {
        let number = self.reason.number();
        let Refusal {
            reason,
            place,
            origin,
        } = *self;
        write!(
            f,
            "refusal {number} at place {place}, from {origin}: {reason}"
        )
    }
}
