//! What a design comes to: its blocks, its worth and the pairs that lead out of it, and how an
//! engine ends with it.

ghost use Rattle.std.specs.Prelude.{◌≡◌};
ghost use Rattle.design_engines.specs.Designs.{verdict_for};

use check_engines::Verdict;
use design_value::OpenPairs;

/// What a design comes to in a mine.
#[derive(Drop)]
pub(crate) struct Valued {
    /// How many blocks it has.
    pub count: u32,
    /// What they are worth, in billionths.
    pub worth: i128,
    /// The pairs that lead from a block of it to one outside.
    pub open: OpenPairs,
}

/// How an engine ends with a design out of which so many pairs lead.
pub(crate) fn verdict_where(leading: u64) -> Verdict
    ensures { result ≡ verdict_for leading }
{
    if leading == 0 {
        Verdict::Done
    } else {
        Verdict::No
    }
}
