// Projection: some set of nodes, put in a track, makes a tree that the machine below accepts.
ghost use Rattle.std.specs.Prelude.{◌≡◌, Some, MatchResult};
ghost use Rattle.layers.specs.Projection.{some_refusal, exists_meaning, some_meaning_lawful, MadeSome};

use crate::set_codes::{MOST_BELOW, SetCodes};
use machine::{Machine, asks_inner, asks_leaf, check};
use trees::{Reason, Refusal, Shape};

#[derive_where(Clone, Copy, PartialEq, Eq, Debug; M)]
pub struct Exists<M> {
    of: M,
    track: usize,
}

impl<M: Machine + Drop> Exists<M> {
    // Refuses a track that the shape lacks, then a machine of more codes than 32.
    pub fn new(of: M, track: usize) -> Result<Exists<M>, Refusal>
        ensures { MatchResult result (λ n. MadeSome track (M.Machine.meaning of) (exists_meaning M.Machine.meaning n)) (λ e. some_refusal track (M.Machine.meaning of) ≡ Some e) }
    {
        let tracks = usize::from(of.shape().tracks);
        check(track < tracks, Reason::NoSuchTrack)?;
        check(of.count() <= MOST_BELOW, Reason::CountTooLarge)?;
        Ok(Exists { of, track })
    }
}

// Where the codes below are too many for sets, or the track is no bit of a byte, the projection stands idle: `new`
// makes no such one over a shape within its limits.
impl<M: Machine> Machine for Exists<M> {
    ghost meaning = { exists_meaning M.Machine.meaning };

    ghost lawful = { λ s. some_meaning_lawful s.track (M.Machine.meaning s.of) (M.Machine.lawful s.of) };

    fn shape(&self) -> Shape {
        self.of.shape()
    }

    fn count(&self) -> u64 {
        SetCodes::of(&self.of, self.track).map_or(1, |sets| sets.count)
    }

    fn leaf(&self, label: u8, marks: u8) -> u64 {
        let Some(sets) = SetCodes::of(&self.of, self.track) else {
            return 0;
        };
        if !asks_leaf(self.of.shape(), label, marks) {
            return 0;
        }
        sets.leaf(label, marks)
    }

    fn inner(&self, label: u8, marks: u8, left: u64, right: u64) -> u64 {
        let Some(sets) = SetCodes::of(&self.of, self.track) else {
            return 0;
        };
        if !asks_inner(self.of.shape(), sets.count, label, marks, left, right) {
            return 0;
        }
        sets.inner(label, marks, left, right)
    }

    fn is_final(&self, code: u64) -> bool {
        SetCodes::of(&self.of, self.track).is_some_and(|sets| code < sets.count
            && sets.has_final(code))
    }
}
