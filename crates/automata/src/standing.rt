// How a part of a tree stands to "i's one node is above j's one node".
ghost use Rattle.std.specs.Prelude.{◌≡◌};
ghost use Rattle.automata.specs.Atoms as Atoms;

#[derive(Clone, Copy, PartialEq, Eq, Debug)]
pub enum Standing {
    // no node of either track
    Neither,
    // j's one node, which i's one node may still come above
    Waiting,
    // both, as the rule wants them
    Done,
    // the rule can hold no more
    Dead,
}

impl Standing {
    // A leaf that is in these tracks.
    pub fn of_leaf(upper: bool, lower: bool) -> Standing
        ensures { result ≡ Atoms.leaf_standing upper lower }
    {
        match (upper, lower) {
            (false, false) => Standing::Neither,
            (false, true) => Standing::Waiting,
            (true, _) => Standing::Dead,
        }
    }

    // Codes are numbered as first met: of two leaves with one mark each, the one with the smaller mark comes first.
    // That is an order of two tracks and no choice of what to do, so it stays a `bool`, as in the definition.
    pub fn number(self, upper_first: bool) -> u64
        ensures { result ≡ Atoms.number upper_first self }
    {
        match (self, upper_first) {
            (Standing::Neither, _) => 0,
            (Standing::Dead, true) | (Standing::Waiting, false) => 1,
            (Standing::Waiting, true) | (Standing::Dead, false) => 2,
            (Standing::Done, _) => 3,
        }
    }

    pub fn of_number(upper_first: bool, code: u64) -> Standing
        ensures { result ≡ Atoms.standing upper_first code }
    {
        match (code, upper_first) {
            (0, _) => Standing::Neither,
            (1, true) | (2, false) => Standing::Dead,
            (1, false) | (2, true) => Standing::Waiting,
            _ => Standing::Done,
        }
    }

    // Two parts side by side.
    pub fn beside(self, other: Standing) -> Standing
        ensures { result ≡ Atoms.beside self other }
    {
        match (self, other) {
            (Standing::Neither, one) | (one, Standing::Neither) => one,
            _ => Standing::Dead,
        }
    }

    // A part under a node of neither track, where the lower node has to be a child of the upper.
    pub fn passed(self) -> Standing
        ensures { result ≡ Atoms.passed self }
    {
        match self {
            Standing::Waiting => Standing::Dead,
            other => other,
        }
    }

    // What hangs under the upper node has to wait for it.
    pub fn met(self) -> Standing
        ensures { result ≡ Atoms.met self }
    {
        match self {
            Standing::Waiting => Standing::Done,
            _ => Standing::Dead,
        }
    }

    // Nothing of either track may hang under the lower node.
    pub fn alone(self) -> Standing
        ensures { result ≡ Atoms.alone self }
    {
        match self {
            Standing::Neither => Standing::Waiting,
            _ => Standing::Dead,
        }
    }
}
