//! How many columns of a `.blocks` text may be chosen.

ghost use Rattle.std.specs.Prelude.{◌≡◌};

/// The most columns that one reading of a text may choose.
pub const MOST_COLUMNS: usize = 19;

// Contracts cite the limit by its name, so a wrong number would change code and contract alike: this is the number.
fn number_of_columns()
    ensures { MOST_COLUMNS ≡ 19 }
{}
