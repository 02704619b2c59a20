// Laws of the definitions, and worked examples of them: each function's contract is the statement that it stands for.
ghost use Rattle.trees.specs.Laws.{NodeLaws, PutLaws, ReadingExamples};

// Children, what hangs below a node, and the bytes of a listing.
pub fn node_laws()
    ensures { NodeLaws }
{}

// A set of nodes put in a track.
pub fn put_laws()
    ensures { PutLaws }
{}

// Listings and the refusal that each is due.
pub fn reading_examples()
    ensures { ReadingExamples }
{}
