// The sets of codes of a machine that has few of them.
ghost use Rattle.std.specs.Prelude.{◌≡◌, ◌^◌, ◌<◌, ◌≤◌, true, false, MatchOption};
ghost use Rattle.trees.specs.Nodes.{put_bit};
ghost use Rattle.layers.specs.Projection.{some_fits, leaf_code, pair_code, row_code, inner_code, has_final};

use crate::members::{Members, set_of};
use machine::Machine;

// The most codes of a machine: a set of more would not be a code.
pub(crate) const MOST_BELOW: u64 = 32;

// A machine whose sets of codes are codes, and a track that is a bit of a byte.
#[derive(Drop)]
pub(crate) struct SetCodes<'a, M: Machine> {
    of: &'a M,
    track: usize,
    pub(crate) count: u64,
    ghost few: { (M.Machine.meaning of.now).count ≤ 32 },
    ghost in_byte: { track < 8 },
    ghost counted: { count ≡ 2 ^ (M.Machine.meaning of.now).count },
}

// A node's label, and its marks at the two values of a track.
#[derive(Clone, Copy)]
struct Node {
    label: u8,
    absent: u8,
    present: u8,
}

impl<'a, M: Machine> SetCodes<'a, M> {
    // None where they are too many, or the track is no bit of a byte.
    pub(crate) fn of(machine: &'a M, track: usize) -> Option<SetCodes<'a, M>>
        ensures { MatchOption result (some_fits track (M.Machine.meaning machine.now) ≡ false) (λ s. (some_fits track (M.Machine.meaning machine.now) ≡ true) × (s.of.now ≡ machine.now) × (s.track ≡ track)) }
    {
        let codes = machine.count();
        if codes <= MOST_BELOW && track < 8 {
            Some(SetCodes {
                of: machine,
                track,
                count: 1u64 << codes,
            })
        } else {
            None
        }
    }

    fn node(&self, label: u8, marks: u8) -> Node
        ensures label { result.label ≡ label }
        ensures absent { result.absent ≡ put_bit self.now.track false marks }
        ensures present { result.present ≡ put_bit self.now.track true marks }
    {
        let mark = 1u8 << self.track;
        let present = marks | mark;
        Node {
            label,
            absent: present ^ mark,
            present,
        }
    }

    // What a leaf gives at both values of the track.
    pub(crate) fn leaf(&self, label: u8, marks: u8) -> u64
        ensures { result ≡ leaf_code self.now.track (M.Machine.meaning self.now.of.now) label marks }
    {
        let node = self.node(label, marks);
        set_of(
            self.of.leaf(label, node.absent),
            self.of.leaf(label, node.present),
        )
    }

    // What a left and a right member give.
    fn pair(&self, node: Node, left: u64, right: u64) -> u64
        ensures { result ≡ pair_code (M.Machine.meaning self.now.of.now) node.label node.absent node.present left right }
    {
        set_of(
            self.of.inner(node.label, node.absent, left, right),
            self.of.inner(node.label, node.present, left, right),
        )
    }

    // What a left member gives with each right one.
    fn row(&self, node: Node, left: u64, rights: u64) -> u64
        requires { rights < 2 ^ (M.Machine.meaning self.now.of.now).count }
        ensures { result ≡ row_code (M.Machine.meaning self.now.of.now) node.label node.absent node.present rights left }
    {
        Members::of(rights).fold(0, |set, right| set | self.pair(node, left, right))
    }

    // What each left member gives with each right one, at both values of the track.
    pub(crate) fn inner(&self, label: u8, marks: u8, lefts: u64, rights: u64) -> u64
        requires lefts_below { lefts < 2 ^ (M.Machine.meaning self.now.of.now).count }
        requires rights_below { rights < 2 ^ (M.Machine.meaning self.now.of.now).count }
        ensures { result ≡ inner_code self.now.track (M.Machine.meaning self.now.of.now) label marks lefts rights }
    {
        let node = self.node(label, marks);
        Members::of(lefts).fold(0, |set, left| set | self.row(node, left, rights))
    }

    // Stops at the first final member.
    pub(crate) fn has_final(&self, set: u64) -> bool
        ensures { result ≡ has_final (M.Machine.meaning self.now.of.now) set }
    {
        Members::of(set).any(|code| self.of.is_final(code))
    }
}
