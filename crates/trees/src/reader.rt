// The reading of listings.
ghost use Rattle.std.specs.Prelude.{◌≡◌, ℕ, ◌+◌, ◌^◌, ◌<◌, Bool, true, List, [], ◌∷◌, length, Some, None, MatchResult, OnOk};
ghost use Rattle.trees.specs.Trees.{Tree, leaf, inner};
ghost use Rattle.trees.specs.Reading.{node_refusal, opened, rest_refusal, first_refusal, outcome, Answers, Reads};
ghost use Rattle.trees.specs.Stacks.{grown, parts};

use crate::fold::Fold;
use crate::refusal::{Origin, Reason, Refusal};
use crate::shape::Shape;

// The longest listing, in bytes.
pub const LONGEST: usize = 8192;

// The refusals of this layer; others have an origin of their own.
fn refused(reason: Reason, place: usize) -> Refusal
    ensures { result ≡ record { reason = reason; place = place; origin = Origin.Trees } }
{
    Refusal {
        reason,
        place,
        origin: Origin::Trees,
    }
}

// How far a reading is: the number of nodes that are read, and of parts that are open. Shape and fold stay arguments: held
// here, each clause would have to say that they are still the same.
#[derive(Clone, Copy)]
struct Reading {
    place: usize,
    height: usize,
}

impl Reading {
    // Reads one node more into the fold.
    fn read_node<F: Fold>(
        &mut self,
        shape: Shape,
        fold: &mut F,
        label: u8,
        marks: u8,
    ) -> Result<(), Refusal>
        requires place_fits { self.old.place < 2 ^ 63 }
        requires height_fits { self.old.height < 2 ^ 63 }
        ensures due { MatchResult result (λ _. node_refusal shape (F.Fold.room fold.old) self.old.place self.old.height label marks ≡ None) (λ e. node_refusal shape (F.Fold.room fold.old) self.old.place self.old.height label marks ≡ Some e) }
        ensures place { OnOk result (self.new.place ≡ self.old.place + 1) }
        ensures height { OnOk result (self.new.height ≡ opened shape self.old.height label) }
        ensures same { F.Fold.room fold.new ≡ F.Fold.room fold.old }
        ensures made { OnOk result ((s : F) (ts : List Tree) → length ts ≡ self.old.height → F.Fold.holds s fold.old ts → F.Fold.holds s fold.new (grown shape.leaves label marks ts)) }
    {
        let place = self.place;
        if !shape.has_label(label) {
            return Err(refused(Reason::UnknownLabel, place));
        }
        if !shape.has_marks(marks) {
            return Err(refused(Reason::UnknownMarks, place));
        }
        if label < shape.leaves {
            fold.add_leaf(self.height, label, marks)
                .map_err(|_| refused(Reason::StackFull, place))?;
            self.height += 1;
        } else if self.height < 2 {
            return Err(refused(Reason::MissingParts, place));
        } else {
            fold.add_inner(self.height, label, marks);
            self.height -= 1;
        }
        self.place += 1;
        Ok(())
    }
}

// As `read`, said of the bytes and the open parts that they make.
fn read_nodes<F: Fold>(shape: Shape, listing: &[u8], fold: &mut F) -> Result<(), Refusal>
    ensures due { MatchResult result (λ _. first_refusal shape (F.Fold.room fold.old) listing.now ≡ None) (λ e. first_refusal shape (F.Fold.room fold.old) listing.now ≡ Some e) }
    ensures same { F.Fold.room fold.new ≡ F.Fold.room fold.old }
    ensures made { OnOk result (F.Fold.holds fold.old fold.old [] → F.Fold.holds fold.old fold.new (parts shape.leaves listing.now [])) }
{
    if listing.len() > LONGEST || listing.len() % 2 != 0 {
        return Err(refused(Reason::BadLength, 0));
    }
    let mut reading = Reading {
        place: 0,
        height: 0,
    };
    // each node is split off the front, as a listing is defined: label, marks, rest
    let mut bytes = listing;
    while let [label, marks, rest @ ..] = bytes {
        reading.read_node(shape, fold, *label, *marks)?;
        bytes = rest;
    }
    if reading.height != 1 {
        return Err(refused(Reason::NotOneTree, reading.place));
    }
    Ok(())
}

// Reads a listing into a fold: refuses with the first refusal due, or leaves the fold holding the one tree whose listing it is.
pub fn read<F: Fold>(shape: Shape, listing: &[u8], fold: &mut F) -> Result<(), Refusal>
    ensures due { result ≡ outcome (first_refusal shape (F.Fold.room fold.old) listing.now) }
    ensures answers { Answers shape (F.Fold.room fold.old) listing.now }
    ensures made { (t : Tree) → Reads shape (F.Fold.room fold.old) listing.now t → F.Fold.holds fold.old fold.old [] → F.Fold.holds fold.old fold.new (t ∷ []) }
    ensures same { F.Fold.room fold.new ≡ F.Fold.room fold.old }
{
    read_nodes(shape, listing, fold)
}
