//! Decides whether an amount is positive, whether a block has no operation, and whether it may
//! begin one or isn't done yet.

ghost use Rattle.std.specs.Prelude.{◌≡◌, not, ◌&&◌, ◌||◌};
ghost use Rattle.ordered_group.specs.Amount.{is_zero};
ghost use Rattle.machine_law.specs.Reads.{is_positive};
ghost use Rattle.machine_law.specs.Operations.{operation_as, is_idle};

use machine_law::Operation;
use ordered_group::{OrderedGroup, is_zero};

/// Whether the amount is above zero.
pub fn is_positive<G: OrderedGroup>(amount: G) -> bool
    ensures { result ≡ is_positive (G.parts_of amount) }
{
    G::zero().cmp(&amount).is_lt()
}

/// Whether there is no operation.
pub fn is_idle<G: OrderedGroup>(operation: &Operation<G>) -> bool
    ensures { result ≡ is_idle (operation_as G.parts_of operation.now) }
{
    matches!(operation, Operation::Idle)
}

/// Whether a block with this excess is ready to begin an operation, where it has none or has one.
pub fn is_waiting<G: OrderedGroup>(excess: G, idle: bool) -> bool
    ensures { result ≡ idle && is_positive (G.parts_of excess) }
{
    idle && is_positive(excess)
}

/// Whether a block with this excess isn't done for now, where it has no operation or has one.
pub fn is_busy<G: OrderedGroup>(excess: G, idle: bool) -> bool
    ensures { result ≡ not idle || not (is_zero (G.parts_of excess)) }
{
    !idle || !is_zero(excess)
}
