//! The limit on the ways to treat a block that a table of prices may have.

ghost use Rattle.std.specs.Prelude.{◌≡◌};

/// The most ways to treat a block that a table of prices may have.
pub const MOST_WAYS: usize = 8;

// Contracts cite the limit by its name, so a wrong number would change code and contract alike: this is the number.
fn number()
    ensures { MOST_WAYS ≡ 8 }
{}
