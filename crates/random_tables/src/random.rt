// Numbers that look random and are the same in every run.
ghost use Rattle.std.specs.Prelude.{◌≤◌};

#[derive(Drop)]
pub struct Random {
    state: u64,
}

impl Random {
    // The seed is not 0, which the shifts would keep.
    pub fn new(seed: u64) -> Random {
        Random { state: seed | 1 }
    }

    pub fn next(&mut self) -> u64 {
        let mut x = self.state;
        x ^= x << 13;
        x ^= x >> 7;
        x ^= x << 17;
        self.state = x;
        x >> 11
    }

    // A number below `limit`, or 0 where there is none: draws stay total, as an `Option` would only be unwrapped at each.
    pub fn below(&mut self, limit: u64) -> u64
        ensures { result ≤ limit }
    {
        if limit == 0 {
            return 0;
        }
        self.next() % limit
    }

    // the casts here and below fit, which is proved
    pub fn byte_below(&mut self, limit: u8) -> u8 {
        self.below(u64::from(limit)) as u8
    }

    pub fn index_below(&mut self, limit: u8) -> usize {
        usize::from(self.byte_below(limit))
    }

    pub fn byte(&mut self) -> u8 {
        (self.next() % 256) as u8
    }

    pub fn coin(&mut self) -> bool {
        self.below(2) == 1
    }
}
