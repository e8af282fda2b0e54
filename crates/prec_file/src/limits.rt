//! How many pairs of a block and a predecessor there may be.

ghost use Rattle.std.specs.Prelude.{◌≡◌};

/// The most pairs that a text may list and that are held at once, which bounds the memory for them and their indexes.
pub const MOST_PAIRS: usize = 1 << 27;

// Contracts cite the limit by its name, so a wrong number would change code and contract alike: this is the number.
fn number_of_pairs()
    ensures { MOST_PAIRS ≡ 134217728 }
{}
