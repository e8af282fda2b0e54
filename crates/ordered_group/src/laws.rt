//! Laws of amounts: they are an ordered group, the sum of a set tells its worth, and where amounts count
//! blocks the order of sums is that of sets. Each is the contract of a function that does nothing.

ghost use Rattle.std.specs.Prelude.{◌≡◌};
ghost use Rattle.std.specs.Ordering.{MatchOrdering};
ghost use Rattle.ordered_group.specs.Amount.{Below};
ghost use Rattle.ordered_group.specs.Laws.{IsOrderedGroup, SumsTellWorth, BlocksTellWorth, SumsOrderSets};

use crate::groups::OrderedGroup;
use crate::size::SizeGroup;

/// Amounts are an ordered group: addition is commutative and associative, with zero and opposites,
/// and the order is total, tells different amounts apart, and is kept when one amount is added to
/// both sides.
pub fn amounts_are_an_ordered_group()
    ensures { IsOrderedGroup }
{}

/// The values of every group are ordered as the amounts that they stand for, and two that stand
/// for one amount are one value.
pub fn values_are_ordered_as_amounts<G: OrderedGroup>(a: G, b: G)
    ensures { MatchOrdering (G.cmp a b)
        (Below (G.parts_of a) (G.parts_of b)) (a ≡ b) (Below (G.parts_of b) (G.parts_of a)) }
{}

/// In every group the sum of a set of blocks tells the set's worth.
pub fn set_sums_tell_worth<G: OrderedGroup>()
    ensures { SumsTellWorth G.block_parts G.set_worth }
{}

/// In every group the amount of one block tells the block's worth, in a model that has a block.
pub fn block_amounts_tell_worth<G: OrderedGroup>()
    ensures { BlocksTellWorth G.block_parts G.set_worth }
{}

/// In a group with sizes one set's sum is below another's exactly where the set is worth less, or is
/// worth as much and has more blocks.
pub fn set_sums_order_sets<G: SizeGroup>()
    ensures { SumsOrderSets G.block_parts }
{}
