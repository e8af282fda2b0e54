//! Who rests on whom by the offsets of each block's own region, with no list where a grid holds the places.

ghost use Rattle.std.specs.Prelude.{map, IfOk, IfSome, MatchResult};
ghost use Rattle.slope.specs.Slopes.{AreOwnSlopes, AreRightSlopes, RegionFaultStands, own_offsets};
ghost use Rattle.slope_offsets.specs.declared.selection.Selection.TheVariants.{Every};

use crate::offsets::{are_few, lead_up};
use crate::own_regions::own_regions;
use crate::pairs::HeldPairs;
use blocks_file::BlockModel;
use places::{Precedence, grid_of};
use slope::{MOST_REGIONS, RegionFault, predecessors_by_region};
use slope_offsets::{Selection, Up};
use std::alloc::Global;

// The pairs by a grid of places, where there is one, its blocks have few ways, and nothing is wrong with the regions.
fn placed_by_region(
    alloc: Global,
    model: &BlockModel,
    listed: &[Vec<(i32, i32, i32)>],
    up: Up,
) -> Option<HeldPairs>
    ensures made { IfSome result
        (AreOwnSlopes model.now (own_offsets (map (λ w. w.items) listed.now) model.now) up Every) }
    ensures right { IfSome result (λ _.
        AreRightSlopes (map (λ w. w.items) listed.now) model.now) }
{
    let count = listed.len();
    if count > MOST_REGIONS {
        return None;
    }
    if !lead_up(listed) {
        return None;
    }
    if !are_few(listed) {
        return None;
    }
    let Some(regions) = own_regions(alloc, model, count) else {
        return None;
    };
    let Ok(grid) = grid_of(alloc, model, regions, listed, up) else {
        return None;
    };
    // proof: what is known of every grid
    let _blocks = Precedence::len(&grid);
    let Some(held) = HeldPairs::of_grid(grid) else {
        return None;
    };
    Some(held)
}

// The pairs by a list.
fn listed_by_region(
    alloc: Global,
    model: &BlockModel,
    listed: &[Vec<(i32, i32, i32)>],
    up: Up,
) -> Result<HeldPairs, RegionFault>
    ensures made { MatchResult result
        (AreOwnSlopes model.now (own_offsets (map (λ w. w.items) listed.now) model.now) up Every)
        (RegionFaultStands (map (λ w. w.items) listed.now) model.now up Every) }
    ensures right { IfOk result (λ _.
        AreRightSlopes (map (λ w. w.items) listed.now) model.now) }
{
    match predecessors_by_region(alloc, model, listed, up, Selection::Every) {
        Ok(list) => {
            let held = HeldPairs::of_list(list);
            Ok(held)
        }
        Err(fault) => Err(fault),
    }
}

/// Who rests on whom in a model of regions: the pairs of `slope::predecessors_by_region`, every one of them, and also
/// where these are more than a list may have. No list is made where a grid holds the places.
///
/// # Errors
/// Those of `slope::predecessors_by_region`, `TooMany` only where a list has to be made.
pub fn held_by_region(
    alloc: Global,
    model: &BlockModel,
    listed: &[Vec<(i32, i32, i32)>],
    up: Up,
) -> Result<HeldPairs, RegionFault>
    ensures made { MatchResult result
        (AreOwnSlopes model.now (own_offsets (map (λ w. w.items) listed.now) model.now) up Every)
        (RegionFaultStands (map (λ w. w.items) listed.now) model.now up Every) }
    ensures right { IfOk result (λ _.
        AreRightSlopes (map (λ w. w.items) listed.now) model.now) }
{
    match placed_by_region(alloc, model, listed, up) {
        Some(held) => Ok(held),
        None => listed_by_region(alloc, model, listed, up),
    }
}

/// What the pairs that slopes give are held by.
#[derive(Clone, Copy)]
pub enum Holder {
    /// A list.
    List,
    /// Places where a grid has them, and a list otherwise.
    Places,
}

/// Who rests on whom in a model of regions, as [`held_by_region`] has it, by the holder that is asked for.
///
/// # Errors
/// Those of `slope::predecessors_by_region`, `TooMany` only where a list has to be made.
pub fn pairs_by_region(
    alloc: Global,
    model: &BlockModel,
    listed: &[Vec<(i32, i32, i32)>],
    up: Up,
    holder: Holder,
) -> Result<HeldPairs, RegionFault>
    ensures made { MatchResult result
        (AreOwnSlopes model.now (own_offsets (map (λ w. w.items) listed.now) model.now) up Every)
        (RegionFaultStands (map (λ w. w.items) listed.now) model.now up Every) }
    ensures right { IfOk result (λ _.
        AreRightSlopes (map (λ w. w.items) listed.now) model.now) }
{
    match holder {
        Holder::List => listed_by_region(alloc, model, listed, up),
        Holder::Places => held_by_region(alloc, model, listed, up),
    }
}
