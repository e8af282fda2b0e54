//! How many steps a run of push-relabel may have.

ghost use Rattle.std.specs.Prelude.{◌≡◌};

/// The most steps that a state counts; none is made beyond them.
pub const MOST_STEPS: u64 = 1 << 40;

// Contracts cite the limit by its name, so a wrong number would change code and contract alike: this is the number.
fn number_of_steps()
    ensures { MOST_STEPS ≡ 1099511627776 }
{}
