//! How long the name in a `.upit` text may be.

ghost use Rattle.std.specs.Prelude.{◌≡◌};

/// The most bytes of a name, so that a line that gives it is no longer than a line may be.
pub const NAME_BYTES: usize = 60_000;

// Contracts cite the limit by its name, so a wrong number would change code and contract alike: this is the number.
fn number_of_bytes()
    ensures { NAME_BYTES ≡ 60000 }
{}
