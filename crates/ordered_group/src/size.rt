//! Which kinds of amounts tell, of two sets that are worth the same, which has fewer blocks, so
//! that a maximum closure is the best pit.

ghost use Rattle.ordered_group.specs.Laws.{SumsOrderSets};

use crate::groups::OrderedGroup;

/// A group whose sums over sets of blocks tell which set is worth more, and, of two sets that are
/// worth the same, which has fewer blocks.
pub trait SizeGroup: OrderedGroup {
    // a set has the lower sum exactly where it is worth less, or the same with more blocks
    ghost orders_sets: { SumsOrderSets Self.block_parts };
}
