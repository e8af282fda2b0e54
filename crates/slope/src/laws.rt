//! Laws of the pairs that a pattern or the slopes of regions give: a block has at most as many predecessors as there
//! are offsets, and the reduced pairs have the same closures as all pairs.
//!
//! The functions do nothing. A caller names one where its own proof needs the law.

ghost use Rattle.std.specs.Prelude.{◌↔◌, ℕ, ◌≤◌, Bool, Contains, List, length};
ghost use Rattle.blocks_file.specs.Denotes.{BlocksView};
ghost use Rattle.prec_file.specs.Rests.{RestsView, above_of};
ghost use Rattle.prec_file.specs.Written.{AreNarrow};
ghost use Rattle.slope_offsets.specs.declared.selection.Selection as selected;
ghost use Rattle.slope_offsets.specs.declared.selection.Selection.TheVariants.{Reduced};
ghost use Rattle.slope_offsets.specs.declared.up.Up as declared;
ghost use Rattle.slope_offsets.specs.Offsets.{Offset};
ghost use Rattle.slope.specs.Slopes.{AreAllUpward, AreOwnSlopes, AreSlopes, IsOwnPair, IsSlopePair, IsClosedBy, own_offsets};

use slope_offsets::Pattern;

/// A block rests on at most as many blocks as the pattern has offsets, so that the pairs can be written as a file.
pub fn slopes_are_narrow(pattern: &Pattern)
    ensures each { (m : BlocksView) (up : declared.Up) (selection : selected.Selection)
        (rests : RestsView) → AreSlopes m pattern.now up selection rests → (b : ℕ)
        → length (above_of rests.pairs b) ≤ length pattern.now }
    ensures narrow { (m : BlocksView) (up : declared.Up) (selection : selected.Selection)
        (rests : RestsView) → AreSlopes m pattern.now up selection rests → AreNarrow rests }
{
    // proof: the offsets are few, each once and in order
    let _ = pattern.offsets();
}

/// The reduced pairs mean the same as every pair: a set of blocks is closed by those exactly where it is closed by
/// these.
pub fn reduced_pairs_close(pattern: &Pattern)
    ensures { (m : BlocksView) (up : declared.Up) (rests : RestsView) (e : ℕ → Bool)
        → AreSlopes m pattern.now up Reduced rests
        → IsClosedBy (Contains rests.pairs) e ↔ IsClosedBy (IsSlopePair m pattern.now up) e }
{
    // proof: each offset leads up
    let _ = pattern.offsets();
}

/// So do the reduced pairs of slopes by region, where each offset leads up.
pub fn reduced_region_pairs_close()
    ensures { (listed : List (List Offset)) (m : BlocksView) (up : declared.Up) (rests : RestsView)
        (e : ℕ → Bool) → AreAllUpward listed
        → AreOwnSlopes m (own_offsets listed m) up Reduced rests
        → IsClosedBy (Contains rests.pairs) e
        ↔ IsClosedBy (IsOwnPair m (own_offsets listed m) up) e }
{}
