// A machine: an automaton behind five questions.
ghost use Rattle.std.specs.Prelude.{◌≡◌};
ghost use Rattle.automata.specs.Automata.{Automaton, Lawful};

use trees::Shape;

// `meaning` is the five answers. `lawful` is owed of every value of the make, with no premise: each code answered is
// below the count, and a question outside shape or count gets code 0 and "not final".
// The questions are the subject's own: labels, marks and codes are numbers, and no question goes without an answer.
pub trait Machine {
    ghost meaning: { Self → Automaton };

    ghost lawful: { (m : Self) → Lawful (meaning m) };

    fn shape(&self) -> Shape
        ensures { result ≡ (meaning self.now).shape };

    fn count(&self) -> u64
        ensures { result ≡ (meaning self.now).count };

    fn leaf(&self, label: u8, marks: u8) -> u64
        ensures { result ≡ (meaning self.now).leaf_step label marks };

    fn inner(&self, label: u8, marks: u8, left: u64, right: u64) -> u64
        ensures { result ≡ (meaning self.now).inner_step label marks left right };

    fn is_final(&self, code: u64) -> bool
        ensures { result ≡ (meaning self.now).final code };
}
