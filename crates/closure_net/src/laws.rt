//! Laws that lead from a maximum closure of a net to its mine's best pit, and from lower worths to higher ones; each
//! is the contract of a function that does nothing.

ghost use Rattle.std.specs.Prelude.{ℕ, Bool};
ghost use Rattle.ordered_group.specs.Block.{worth_block};
ghost use Rattle.closure_net.specs.Network.{NetView};
ghost use Rattle.closure_net.specs.Closure.{IsGreatest};
ghost use Rattle.closure_net.specs.Mine.{Mine, IsNetOf, IsRichest, IsBest, AreSame, RisesTo, LiesWithin};

use ordered_group::SizeGroup;

/// Where the net of a mine counts worth alone, a greatest closed set of it is a pit that is worth
/// as much as any (Picard, 1976).
pub fn greatest_set_is_richest_pit()
    ensures { (mine : Mine) (net : NetView) (e : ℕ → Bool)
        → IsNetOf worth_block mine net → IsGreatest net e → IsRichest mine e }
{}

/// Where the sums of the net of a mine order sets by worth and then by the fewer blocks, a greatest
/// closed set of it is the best pit: worth as much as any, with fewer blocks than every other pit
/// that is worth the same.
pub fn greatest_set_is_best_pit<G: SizeGroup>()
    ensures { (mine : Mine) (net : NetView) (e : ℕ → Bool) → IsNetOf G.block_parts mine net
        → IsGreatest net e → IsBest mine e }
{}

/// A mine has at most one best pit.
pub fn best_pit_is_unique()
    ensures { (mine : Mine) (e c : ℕ → Bool) → IsBest mine e → IsBest mine c → AreSame mine e c }
{}

/// Where no block is worth less than before, the best pit keeps the blocks that it had.
pub fn best_pits_are_nested()
    ensures { (mine later : Mine) (e c : ℕ → Bool) → RisesTo mine later → IsBest mine e
        → IsBest later c → LiesWithin mine e c }
{}
