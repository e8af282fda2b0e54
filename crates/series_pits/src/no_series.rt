//! Why there is no series of shells: a factor at which no pit is proved or amounts don't fit, or
//! memory.

use closure_net::NetFault;
use solve_engines::solvers::Unsolved;
use std::alloc::AllocError;

/// Why there is no series.
#[derive(Clone, Copy, Debug, PartialEq, Eq)]
pub enum NoSeries {
    /// At this factor, in thousandths, no pit was proved.
    Unsolved(u32, Unsolved),
    /// At this factor an amount of the net doesn't fit.
    Model(u32, NetFault),
    /// Memory was refused.
    Memory,
}

impl From<AllocError> for NoSeries {
    ghost use Rattle.std.specs.Prelude.{◌≡◌};
    ghost use Rattle.series_pits.specs.declared.no_series.NoSeries.TheVariants as none;

    ghost from_gives = { λ _ e. e ≡ none.Memory };

    fn from(_: AllocError) -> NoSeries {
        NoSeries::Memory
    }
}
