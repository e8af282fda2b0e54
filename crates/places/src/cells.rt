//! Which block is in which cell of the grid of places. Two blocks in one cell are refused.

ghost use Rattle.std.specs.Prelude.{◌+◌, ◌<◌, ◌≤◌, ℕ, length, slice_index_or, MatchResult};
ghost use Rattle.places.specs.Grids.{AreCells, GridFaultStands};

use fixed_worth::MOST_BLOCKS;
use std::alloc::Global;

/// Why there is no grid.
#[derive(Clone, Copy, Debug, PartialEq, Eq)]
pub enum GridFault {
    /// The second block is in the cell of the first.
    SamePlace(u32, u32),
    /// The parts don't fit one another, or the padded box has too many cells. Nothing is claimed of it: the caller
    /// takes a list.
    TooWide,
    /// Memory was refused.
    NoMemory,
}

// The block of each cell and one, or 0.
pub(crate) fn cells_of(
    alloc: Global,
    lows: &[u32],
    centre: u32,
    count: u32,
) -> Result<Vec<u32>, GridFault>
    requires few { length lows.now ≤ MOST_BLOCKS }
    requires inside { (b : ℕ) → b < length lows.now → slice_index_or lows.now b 0 + centre < count }
    ensures { MatchResult result
        (λ v. AreCells lows.now centre count (length lows.now) v.items)
        (λ e. GridFaultStands lows.now e) }
{
    let mut cells: Vec<u32> = match vec![in alloc; 0; count as usize] {
        Ok(made) => made,
        Err(_) => return Err(GridFault::NoMemory),
    };
    for b in 0..lows.len() as u32 {
        let cell = (lows[b as usize] + centre) as usize;
        let other = cells[cell];
        if other != 0 {
            return Err(GridFault::SamePlace(other - 1, b));
        }
        cells[cell] = b + 1;
    }
    Ok(cells)
}
