//! The nodes of the expanded mine: who precedes whom among them, of which no list is made.

ghost use Rattle.std.specs.Prelude.{◌≡◌, ◌*◌, IfOk};
ghost use Rattle.places.specs.Held.{pairs_held};
ghost use Rattle.expanded_mine.specs.Lists.{AreNodePairs};

use crate::expand_fault::ExpandFault;
use crate::waits::Waits;
use fixed_worth::MOST_BLOCKS;
use held_pairs::HeldPairs;
use places::{Held, Nodes, Precedence};

/// Which node rests on which: the pairs of the expanded mine of these blocks over so many periods, which wait for
/// others. They are told by the blocks, so that none is held.
///
/// # Errors
/// `TooManyNodes` before all else; `TooManyPairs`.
pub fn node_pairs_of(base: Held, waits: Waits, periods: u32) -> Result<HeldPairs, ExpandFault>
    requires { waits.pairs.blocks ≡ (pairs_held base).blocks }
    ensures { IfOk result (λ r. (r.blocks ≡ periods * (pairs_held base).blocks)
        × AreNodePairs (pairs_held base).blocks periods waits.lag
        waits.pairs.pairs (pairs_held base).pairs r.pairs) }
{
    let blocks = Precedence::len(&base);
    if periods as u64 * blocks as u64 > MOST_BLOCKS as u64 {
        return Err(ExpandFault::TooManyNodes);
    }
    let Waits { pairs, lag } = waits;
    let Some(nodes) = Nodes::of(base, periods, pairs, lag) else {
        return Err(ExpandFault::TooManyPairs);
    };
    // proof: what is known of all nodes
    let _nodes = nodes.len();
    match HeldPairs::of_nodes(nodes) {
        Some(pairs) => Ok(pairs),
        None => Err(ExpandFault::TooManyPairs),
    }
}
