// The marks of a node.
ghost use Rattle.std.specs.Prelude.{◌≡◌};
ghost use Rattle.trees.specs.Nodes.{bit};

// Tracks past the eighth have no bit in a byte.
pub fn has_mark(marks: u8, track: usize) -> bool
    ensures { result ≡ bit track marks }
{
    track < 8 && (marks >> track) % 2 == 1
}
