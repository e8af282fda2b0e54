//! Lays the blocks of a model and the offsets of its regions out in a padded box, and makes the grid of them.

ghost use Rattle.std.specs.Prelude.{◌≡◌, ◌<◌, map, length, IfSome, IfOk, MatchResult};
ghost use Rattle.places.specs.Boxes.{AreLows, AreRaised};
ghost use Rattle.places.specs.Placed.{AreDeltas, ArePlaced, PlacesFaultStands};

use crate::cells::GridFault;
use crate::grid::{Grid, GridParts};
use crate::padded_box::{PaddedBox, box_of, centre_of, delta_of, low_of};
use blocks_file::BlockModel;
use slope_offsets::Up;
use std::alloc::Global;

// The cell of each block.
fn lows_of(alloc: Global, of: &PaddedBox, model: &BlockModel, up: Up) -> Result<Vec<u32>, GridFault>
    ensures { MatchResult result
        (λ v. AreLows of.now up model.now model.now.blocks v.items)
        (PlacesFaultStands model.now) }
{
    let Ok(mut lows) = Vec::with_capacity(alloc, model.len() as usize) else {
        return Err(GridFault::NoMemory);
    };
    for b in 0..model.len() {
        let Some(low) = low_of(of, up, model.place(b)) else {
            return Err(GridFault::TooWide);
        };
        if lows.push(low).is_err() {
            return Err(GridFault::NoMemory);
        }
    }
    Ok(lows)
}

// Why offsets have no cells.
#[derive(Clone, Copy)]
enum Lack {
    // one leads out of the box
    Room,
    // memory was refused
    Memory,
}

// The cells of offsets.
fn raised(alloc: Global, of: &PaddedBox, offsets: &[(i32, i32, i32)]) -> Result<Vec<u32>, Lack>
    ensures { IfOk result (λ v. AreRaised of.now offsets.now (length offsets.now) v.items) }
{
    let mut deltas = Vec::new(alloc);
    for offset in offsets {
        let Some(delta) = delta_of(of, *offset) else {
            return Err(Lack::Room);
        };
        if deltas.push(delta).is_err() {
            return Err(Lack::Memory);
        }
    }
    Ok(deltas)
}

// The cells of the offsets of all regions, and where those of each region begin.
fn deltas_of(
    alloc: Global,
    of: &PaddedBox,
    slopes: &[Vec<(i32, i32, i32)>],
) -> Result<(Vec<u32>, Vec<u32>), Lack>
    ensures { IfOk result
        (λ made. AreDeltas of.now (map (λ v. v.items) slopes.now) (length slopes.now)
        made.0.items made.1.items) }
{
    let mut starts: Vec<u32> = Vec::new(alloc);
    let mut deltas: Vec<u32> = Vec::new(alloc);
    let Ok(_) = starts.push(0) else {
        return Err(Lack::Memory);
    };
    for r in 0..slopes.len() {
        let added = raised(alloc, of, &slopes[r])?;
        let Ok(_) = deltas.extend_from_slice(&added) else {
            return Err(Lack::Memory);
        };
        if deltas.len() >= 4_294_967_296 {
            return Err(Lack::Room);
        }
        let Ok(_) = starts.push(deltas.len() as u32) else {
            return Err(Lack::Memory);
        };
    }
    Ok((starts, deltas))
}

// The greatest of these numbers, or of them and another.
fn greatest(numbers: &[u32], other: u32) -> u32 {
    let mut most = other;
    for number in numbers {
        most = most.max(*number);
    }
    most
}

// The most cells that a grid of so many blocks may have: a box that is all but empty would cost more memory than a
// list.
fn most_cells(blocks: usize) -> u64 {
    (blocks as u64).saturating_mul(64).saturating_add(1 << 24)
}

// The parts of a grid, where its box isn't too large.
fn parted(
    lows: Vec<u32>,
    regions: Vec<u8>,
    centre: u32,
    starts: Vec<u32>,
    deltas: Vec<u32>,
) -> Option<GridParts>
    ensures { IfSome result (λ p. (p.lows.items ≡ lows.items) × (p.regions.items ≡ regions.items)
        × (p.centre ≡ centre) × (p.starts.items ≡ starts.items) × (p.deltas.items ≡ deltas.items)) }
{
    let inner = greatest(&lows, 0).checked_add(1)?;
    let reach = greatest(&deltas, centre).checked_add(1)?;
    let count = inner.checked_add(reach)?;
    if count as u64 > most_cells(lows.len()) {
        return None;
    }
    Some(GridParts {
        lows,
        regions,
        centre,
        starts,
        deltas,
        inner,
        reach,
        count,
    })
}

/// The grid of a model's blocks, each of a region, with the offsets of each region: b rests on p exactly where p stands
/// at an offset of b's own region from it. The differences are whole numbers without bound, so that no offset leads
/// round the ends of the coordinates.
///
/// # Errors
/// `SamePlace` with the first block that has the place of an earlier one; `TooWide`, of which nothing is claimed, where
/// a block's region has no offsets, an offset leads nowhere, or the padded box has too many cells; and `NoMemory`.
pub fn grid_of(
    alloc: Global,
    model: &BlockModel,
    regions: Vec<u8>,
    slopes: &[Vec<(i32, i32, i32)>],
    up: Up,
) -> Result<Grid, GridFault>
    ensures { MatchResult result
        (ArePlaced model.now up (map (λ v. v.items) slopes.now) regions.items)
        (PlacesFaultStands model.now) }
{
    let Some(of) = box_of(model, slopes, up) else {
        return Err(GridFault::TooWide);
    };
    let Some(centre) = centre_of(&of) else {
        return Err(GridFault::TooWide);
    };
    let (starts, deltas) = match deltas_of(alloc, &of, slopes) {
        Ok(made) => made,
        Err(Lack::Room) => return Err(GridFault::TooWide),
        Err(Lack::Memory) => return Err(GridFault::NoMemory),
    };
    let lows = match lows_of(alloc, &of, model, up) {
        Ok(lows) => lows,
        Err(fault) => return Err(fault),
    };
    let Some(parts) = parted(lows, regions, centre, starts, deltas) else {
        return Err(GridFault::TooWide);
    };
    match Grid::of_parts(alloc, parts) {
        Ok(grid) => Ok(grid),
        Err(fault) => Err(fault),
    }
}
