// Automata over marked trees: rules, the automata of the atoms, and the layers over automata.
#![tactic(auto)]

ghost use Rattle.automata.specs.EqualTracks.{EqualTracks};
ghost use Rattle.automata.specs.Examples.{WorkedExamples};

mod standing;

pub use standing::Standing;

// Atoms over one track taken twice.
pub fn equal_tracks()
    ensures { EqualTracks }
{}

// Every worked example of the definitions.
pub fn worked_examples()
    ensures { WorkedExamples }
{}
