// Small random trees, and every way to mark one.
// A set of nodes has the places of its nodes in the listing. A marking is the sets of all tracks side by side in the bits
// of a number, that of track 0 in the lowest: a formula's truth is a list with a place for each marking.
use crate::bit_set::BitSet;
use crate::random::Random;
use std::alloc::Global;
use std::io;
use std::ops::Range;
use trees::Shape;

#[derive(Clone, Copy)]
pub struct Node {
    pub label: u8,
    // its left child, its right child, and all that hang below it
    pub left: BitSet,
    pub right: BitSet,
    pub below: BitSet,
}

// An open part of a tree in the making: its root, and all its nodes.
#[derive(Clone, Copy)]
struct Part {
    root: BitSet,
    all: BitSet,
}

impl Part {
    fn new(place: u64, node: Node) -> Part {
        let root = BitSet::only(place);
        Part {
            root,
            all: root | node.below,
        }
    }
}

impl Node {
    fn leaf(label: u8) -> Node {
        Node {
            label,
            left: BitSet::EMPTY,
            right: BitSet::EMPTY,
            below: BitSet::EMPTY,
        }
    }

    fn inner(label: u8, left: Part, right: Part) -> Node {
        Node {
            label,
            left: left.root,
            right: right.root,
            below: left.all | right.all,
        }
    }
}

#[derive(Drop)]
pub struct Tree {
    nodes: Vec<Node>,
    tracks: u8,
}

pub fn draw_tree(alloc: Global, random: &mut Random, shape: Shape, leaves: u8) -> io::Result<Tree> {
    let mut nodes = Vec::new(alloc);
    let mut open: Vec<Part> = Vec::new(alloc);
    let mut to_come = leaves;
    for place in 0..(2 * u64::from(leaves)).saturating_sub(1) {
        let parts = if open.len() < 2 || (to_come > 0 && random.coin()) {
            None
        } else {
            open.pop().zip(open.pop())
        };
        let node = match parts {
            Some((right, left)) => {
                let nth = random.byte_below(shape.inners);
                Node::inner(shape.leaves.saturating_add(nth), left, right)
            }
            None => {
                to_come = to_come.saturating_sub(1);
                Node::leaf(random.byte_below(shape.leaves))
            }
        };
        nodes.push(node)?;
        open.push(Part::new(place, node))?;
    }
    Ok(Tree {
        nodes,
        tracks: shape.tracks,
    })
}

impl Tree {
    // Where the set of a track begins in a marking.
    fn shift(&self, track: usize) -> usize {
        self.nodes.len().wrapping_mul(track)
    }

    // All sets of nodes, as the bits that they take up; a tree has so few nodes that they are below 2^20.
    pub fn sets(&self) -> Range<u64> {
        0..1 << (self.nodes.len() % 20)
    }

    pub fn markings(&self) -> Range<u64> {
        0..1 << (self.shift(usize::from(self.tracks)) % 20)
    }

    // The marking with this set in a track, and nothing in another.
    pub fn marked(&self, set: u64, track: usize) -> u64 {
        set << (self.shift(track) % 64)
    }

    // Every node of a track, as a marking.
    pub fn whole(&self, track: usize) -> u64 {
        self.marked(!(u64::MAX << (self.nodes.len() % 64)), track)
    }

    // The set of a track.
    pub fn set(&self, marking: u64, track: usize) -> BitSet {
        BitSet::from((marking & self.whole(track)) >> (self.shift(track) % 64))
    }

    fn marks(&self, marking: u64, place: u64) -> u8 {
        (0..self.tracks)
            .filter(|track| self.set(marking, usize::from(*track)).has(place))
            .fold(0, |marks, track| marks | 1 << (track % 8))
    }

    // Whether this holds of each node of the set.
    pub fn all<F: Fn(&Node) -> bool>(&self, set: BitSet, holds: F) -> bool
        requires { F.IsAlwaysCallable holds }
    {
        (0u64..)
            .zip(self.nodes.iter())
            .all(|(place, node)| !set.has(place) || holds(node))
    }

    pub fn listing(&self, alloc: Global, marking: u64) -> io::Result<Vec<u8>> {
        let bytes = (0u64..)
            .zip(self.nodes.iter())
            .flat_map(|(place, node)| [node.label, self.marks(marking, place)])
            .collect(alloc)?;
        Ok(bytes)
    }
}
