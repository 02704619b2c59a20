// Why no table is built.

use std::fmt;

#[derive(Clone, Copy, PartialEq, Eq, Debug)]
pub enum Unbuilt {
    // more codes are reached than there is room for
    TooMany,
    // the numbers or the memory do not serve
    Unserved,
}

impl fmt::Display for Unbuilt {
    fn fmt<W: fmt::Write>(&self, f: &mut fmt::Formatter<W>) -> fmt::Result {
        f.write_str(match self {
            Unbuilt::TooMany => "more codes are reached than there is room for",
            Unbuilt::Unserved =>
                "the shape, the number of states or the lent memory does not serve",
        })
    }
}
