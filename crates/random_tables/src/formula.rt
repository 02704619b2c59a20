// Random formulas, and of which markings of a tree each holds, as set logic says it.
use crate::bit_set::BitSet;
use crate::random::Random;
use crate::small_tree::{Node, Tree};
use atoms::Atom;
use std::alloc::{AllocError, Global};
use std::io;
use trees::Shape;

// A formula over earlier ones, which it names by their places: parts are shared, and the table of each is built once.
#[derive(Clone, Copy)]
pub enum Formula {
    Atom(Atom),
    Not(usize),
    Both(usize, usize),
    Either(usize, usize),
    Exists(usize, usize),
}

// A track, mostly another one.
fn draw_other(random: &mut Random, shape: Shape, i: usize) -> usize {
    let j = random.index_below(shape.tracks);
    if i == j && random.below(8) > 0 {
        if i == 0 { 1 } else { i - 1 }
    } else {
        j
    }
}

fn draw_atom(random: &mut Random, shape: Shape) -> Atom {
    let i = random.index_below(shape.tracks);
    let j = draw_other(random, shape, i);
    match random.below(6) {
        0 => Atom::Sub(i, j),
        1 => Atom::Lab(i, random.index_below(3)),
        2 => Atom::Sing(i),
        3 => Atom::Left(i, j),
        4 => Atom::Right(i, j),
        _ => Atom::Below(i, j),
    }
}

// A formula over two of the first `earlier`.
fn draw_layer(random: &mut Random, shape: Shape, earlier: u8) -> Formula {
    // rather a late one
    let p = random.index_below(earlier).max(random.index_below(earlier));
    let q = random.index_below(earlier);
    match random.below(7) {
        0 => Formula::Not(p),
        1 | 2 => Formula::Both(p, q),
        3 | 4 => Formula::Either(p, q),
        _ => Formula::Exists(random.index_below(shape.tracks), p),
    }
}

// Six atoms, four formulas over them, three over those ten, two over those thirteen: layers nested to depth 3.
pub fn draw_formulas(alloc: Global, random: &mut Random, shape: Shape) -> io::Result<Vec<Formula>> {
    let mut all: Vec<Formula> = (0..6)
        .map(|_| Formula::Atom(draw_atom(random, shape)))
        .collect(alloc)?;
    for earlier in [6, 6, 6, 6, 10, 10, 10, 13, 13] {
        all.push(draw_layer(random, shape, earlier))?;
    }
    Ok(all)
}

// Whether each of the two sets has one node, and the second's is among the kin of the first's.
fn related<F: Fn(&Node) -> BitSet>(tree: &Tree, upper: BitSet, lower: BitSet, kin: F) -> bool
    requires { F.IsAlwaysCallable kin }
{
    upper.len() == 1 && lower.len() == 1 && tree.all(upper, |node| lower.is_within(kin(node)))
}

fn atom_holds(tree: &Tree, atom: Atom, marking: u64) -> bool {
    let set = |track| tree.set(marking, track);
    match atom {
        Atom::Sub(i, j) => set(i).is_within(set(j)),
        Atom::Lab(i, label) => tree.all(set(i), |node| usize::from(node.label) == label),
        Atom::Sing(i) => set(i).len() == 1,
        Atom::Left(i, j) => related(tree, set(i), set(j), |node| node.left),
        Atom::Right(i, j) => related(tree, set(i), set(j), |node| node.right),
        Atom::Below(i, j) => related(tree, set(i), set(j), |node| node.below),
    }
}

// Whether a formula holds, for each marking of a tree.
#[derive(Drop)]
pub struct Truth {
    holds: Vec<bool>,
}

impl Truth {
    fn new<F: Fn(u64) -> bool>(alloc: Global, tree: &Tree, holds: F) -> Result<Truth, AllocError>
        requires { F.IsAlwaysCallable holds }
    {
        Ok(Truth {
            holds: tree
                .markings()
                .map(|marking| holds(marking))
                .collect(alloc)?,
        })
    }

    pub fn get(&self, marking: u64) -> Option<bool> {
        // Rust has no `From` between `u64` and `usize`
        self.holds.get(marking as usize).copied()
    }
}

// Whether some set of nodes, put in the track, makes a formula hold that holds of these markings.
fn some_truth<F: Fn(u64) -> bool>(
    alloc: Global,
    tree: &Tree,
    track: usize,
    holds: F,
) -> Result<Truth, AllocError>
    requires { F.IsAlwaysCallable holds }
{
    let whole = tree.whole(track);
    // what is in the track makes no difference, so the sets are tried only where it has no node
    let unmarked = Truth::new(alloc, tree, |marking| {
        marking & whole == 0
            && tree
                .sets()
                .any(|set| holds(marking | tree.marked(set, track)))
    })?;
    Truth::new(alloc, tree, |marking| {
        unmarked.get(marking & !whole).unwrap_or(false)
    })
}

impl Formula {
    // Of which markings of the tree it holds, where those before it hold of these.
    pub fn truth(
        self,
        alloc: Global,
        tree: &Tree,
        earlier: &Vec<Truth>,
    ) -> Result<Truth, AllocError> {
        let holds = |p: usize, m: u64| {
            let truth = earlier.get(p).and_then(|truth| truth.get(m));
            truth.unwrap_or(false)
        };
        match self {
            Formula::Atom(atom) => Truth::new(alloc, tree, |m| atom_holds(tree, atom, m)),
            Formula::Not(p) => Truth::new(alloc, tree, |m| !holds(p, m)),
            Formula::Both(p, q) => Truth::new(alloc, tree, |m| holds(p, m) && holds(q, m)),
            Formula::Either(p, q) => Truth::new(alloc, tree, |m| holds(p, m) || holds(q, m)),
            Formula::Exists(track, p) => some_truth(alloc, tree, track, |m| holds(p, m)),
        }
    }
}
