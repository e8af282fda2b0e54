//! The predecessors of each block of a model by the offsets of its own region, which are listed region by region.

ghost use Rattle.std.specs.Prelude.{◌≡◌, ◌<◌, ◌≤◌, map, true, IfOk, MatchOption, MatchResult, length};
ghost use Rattle.prec_file.specs.Written.{AreNarrow};
ghost use Rattle.slope.specs.Slopes.{AreOwnSlopes, AreListedRegions, AreAllUpward, GivePairs, HaveAllFew, IsFirstOutside, IsFirstNotUpward, IsFirstWide, RegionFaultStands, own_offsets};
ghost use Rattle.slope.specs.Gathering.{AreOfListed, RegionRefusalStands, region_fault_of};

use crate::ground::{Ground, region_at};
use crate::place_index::index_of;
use crate::slope_pairs::pairs_of;
use crate::{RegionFault, SlopeFault};
use blocks_file::BlockModel;
use prec_file::Predecessors;
use slope_offsets::{MOST_OFFSETS, Pattern, Selection, Up, first_not_upward};
use std::alloc::{AllocError, Global};

/// The most regions of slopes.
pub const MOST_REGIONS: usize = 64;

// Contracts cite the limit by its name, so a wrong number would change code and contract alike: this is the number.
fn most_regions()
    ensures { MOST_REGIONS ≡ 64 }
{}

// The first block that is of no listed region.
fn first_outside(model: &BlockModel, listed: &[Vec<(i32, i32, i32)>]) -> Option<u32>
    ensures { MatchOption result
        (AreListedRegions (map (λ w. w.items) listed.now) model.now)
        (IsFirstOutside (map (λ w. w.items) listed.now) model.now) }
{
    for block in 0..model.len() {
        match region_at(model, true, block) {
            Some(region) if region < listed.len() => {}
            _ => return Some(block),
        }
    }
    None
}

// The first region with an offset that doesn't lead up, and the first such offset.
fn first_sideways(listed: &[Vec<(i32, i32, i32)>]) -> Option<(usize, usize)>
    ensures { MatchOption result
        (AreAllUpward (map (λ w. w.items) listed.now))
        (λ p. IsFirstNotUpward (map (λ w. w.items) listed.now) p.0 p.1) }
{
    for (region, offsets) in listed.iter().enumerate() {
        if let Some(place) = first_not_upward(offsets) {
            return Some((region, place));
        }
    }
    None
}

// The first region with too many offsets.
fn first_wide(listed: &[Vec<(i32, i32, i32)>]) -> Option<usize>
    ensures { MatchOption result
        (HaveAllFew (map (λ w. w.items) listed.now))
        (IsFirstWide (map (λ w. w.items) listed.now)) }
{
    for (region, offsets) in listed.iter().enumerate() {
        if offsets.len() > MOST_OFFSETS {
            return Some(region);
        }
    }
    None
}

// What is wrong with regions, or nothing.
fn refused(model: &BlockModel, listed: &[Vec<(i32, i32, i32)>]) -> Result<(), RegionFault>
    ensures { MatchResult result
        (λ _. AreListedRegions (map (λ w. w.items) listed.now) model.now
        × AreAllUpward (map (λ w. w.items) listed.now)
        × HaveAllFew (map (λ w. w.items) listed.now)
        × (length listed.now ≤ MOST_REGIONS))
        (RegionRefusalStands (map (λ w. w.items) listed.now) model.now) }
{
    if let Some(block) = first_outside(model, listed) {
        return Err(RegionFault::UnknownRegion(block));
    }
    if let Some((region, place)) = first_sideways(listed) {
        return Err(RegionFault::NotUpward(region, place));
    }
    if let Some(region) = first_wide(listed) {
        return Err(RegionFault::TooManyOffsets(region));
    }
    if listed.len() > MOST_REGIONS {
        return Err(RegionFault::TooManyRegions);
    }
    Ok(())
}

// The pattern of each region.
fn patterns_of(alloc: Global, listed: &[Vec<(i32, i32, i32)>]) -> Result<Vec<Pattern>, AllocError>
    requires upward { AreAllUpward (map (λ w. w.items) listed.now) }
    requires few { HaveAllFew (map (λ w. w.items) listed.now) }
    ensures { IfOk result (λ v. AreOfListed (map (λ w. w.items) listed.now) v.items) }
{
    let mut patterns = Vec::new(alloc);
    for offsets in listed {
        patterns.push(Pattern::gathered(alloc, offsets)?)?;
    }
    Ok(patterns)
}

/// Who rests on whom in a model of regions: the pairs (b, p) in which p stands from b at an offset of b's own region,
/// by block alone.
///
/// `listed` has the offsets of region 0, 1, and so on. A block's region is the whole number in the first column of the
/// model, and 0 where the model has none. Otherwise it is as with `predecessors_of`; a pair leads over a third block
/// where that one is at an offset of b's region, and p at one of that block's own region from it.
///
/// # Errors
/// In this order: `SamePlace` where two blocks have one place; `UnknownRegion` with the first block whose region is no
/// whole number, or not a listed one; `NotUpward` with the first region and the first offset of it whose third number
/// isn't at least 1; `TooManyOffsets` with the first region of more than 4,096 offsets; `TooManyRegions` for more than
/// 64; `TooMany` for more than 2^27 of the selected pairs; and `NoMemory`.
pub fn predecessors_by_region(
    alloc: Global,
    model: &BlockModel,
    listed: &[Vec<(i32, i32, i32)>],
    up: Up,
    selection: Selection,
) -> Result<Predecessors, RegionFault>
    ensures made { MatchResult result
        (AreOwnSlopes model.now (own_offsets (map
        (λ w. w.items) listed.now) model.now) up selection)
        (RegionFaultStands (map (λ w. w.items) listed.now) model.now up selection) }
    ensures narrow { IfOk result AreNarrow }
    ensures right { IfOk result (λ _.
        GivePairs (map (λ w. w.items) listed.now) model.now up selection) }
{
    let index = match index_of(alloc, model) {
        Ok(index) => index,
        Err(fault) => return Err(of_slope(fault)),
    };
    refused(model, listed)?;
    let Ok(patterns) = patterns_of(alloc, listed) else {
        return Err(RegionFault::NoMemory);
    };
    let ground = Ground {
        patterns,
        by_column: true,
    };
    match pairs_of(alloc, &index, model, &ground, up, selection) {
        Ok(found) => {
            // proof: the pairs are in order, each once
            let _ = found.len();
            Ok(found)
        }
        Err(fault) => Err(of_slope(fault)),
    }
}

// The fault of places or pairs, as one of slopes by region.
fn of_slope(fault: SlopeFault) -> RegionFault
    ensures { result ≡ region_fault_of fault }
{
    match fault {
        SlopeFault::SamePlace(first, again) => RegionFault::SamePlace(first, again),
        SlopeFault::TooMany => RegionFault::TooMany,
        SlopeFault::NoMemory => RegionFault::NoMemory,
    }
}
