//! The most blocks of a model, bytes of an input and of a line, and factors of a series that are accepted, and the
//! highest factor.

ghost use Rattle.std.specs.Prelude.{◌≡◌};

/// The most blocks that a model may have.
pub const MOST_BLOCKS: u32 = 1 << 24;

/// The most bytes that a line may have, its line feed not counted.
pub const LINE_BYTES: usize = 65_536;

/// The most bytes that an input may have.
pub const MOST_BYTES: u64 = 1 << 32;

/// The highest price factor, in thousandths.
pub const MOST_FACTOR: u32 = 10_000;

/// The most price factors of one series of pits.
pub const MOST_FACTORS: usize = 64;

// Contracts cite the limits by their names, so a wrong number would change code and contract alike: these are the
// numbers.
fn numbers()
    ensures blocks { MOST_BLOCKS ≡ 16777216 }
    ensures line { LINE_BYTES ≡ 65536 }
    ensures bytes { MOST_BYTES ≡ 4294967296 }
    ensures factor { MOST_FACTOR ≡ 10000 }
    ensures factors { MOST_FACTORS ≡ 64 }
{}
