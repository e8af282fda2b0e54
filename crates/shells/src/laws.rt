//! Laws that over one table of prices the best pit at a factor lies within that at a higher one; each
//! is the contract of a function that does nothing.

ghost use Rattle.shells.specs.Nesting.{BestPitsAreNested, AcceptedPitsAreNested};

use ordered_group::SizeGroup;

/// The best pit at a factor lies within the best pit at a higher one, whatever rests on what.
pub fn best_pits_at_factors_are_nested()
    ensures { BestPitsAreNested }
{}

/// Of two pits that were accepted over the same pairs and prices, the one at the lower factor lies
/// within the other. They may have been checked in amounts of different kinds.
pub fn accepted_pits_are_nested<G: SizeGroup, H: SizeGroup>()
    ensures { AcceptedPitsAreNested G.block_parts H.block_parts }
{}
