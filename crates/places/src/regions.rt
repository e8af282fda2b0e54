//! Reads the region of each block out of a column of its model: a whole number below that of the regions, or the first
//! block whose value is none.

ghost use Rattle.std.specs.Prelude.{◌≡◌, ◌≤◌, ◌<◌, ℕ, length, MatchOption, MatchResult};
ghost use Rattle.places.specs.Regions.{IsRegion, AreRegions, RegionColumnFaultStands};

use crate::region_column_fault::RegionColumnFault;
use blocks_file::BlockModel;
use fixed_worth::Micros;
use std::alloc::Global;

/// The most regions that slopes may have.
pub const MOST_REGIONS: usize = 64;

// Contracts cite the limit by its name, so a wrong number would change code and contract alike: this is the number.
fn number_of_regions()
    ensures { MOST_REGIONS ≡ 64 }
{}

// The region that a value is, among so many.
fn region_in(value: Micros, count: usize) -> Option<u8>
    requires { count ≤ MOST_REGIONS }
    ensures { MatchOption result ((r : ℕ) → ¬ (IsRegion value count r)) (IsRegion value count) }
{
    let millionths = value.get();
    if millionths < 0 {
        return None;
    }
    let size = millionths as u64;
    if size % 1_000_000 != 0 {
        return None;
    }
    let region = size / 1_000_000;
    if region < count as u64 {
        Some(region as u8)
    } else {
        None
    }
}

/// The region of each block, by its value of the column that was chosen as the i-th: a whole number below that of the
/// regions.
///
/// # Errors
/// `NoRegion` with the first block whose value is no such number, and `NoMemory`.
pub fn regions_of(
    alloc: Global,
    model: &BlockModel,
    column: u32,
    count: usize,
) -> Result<Vec<u8>, RegionColumnFault>
    requires column { column < length model.now.columns }
    requires few { count ≤ MOST_REGIONS }
    ensures { MatchResult result
        (λ v. AreRegions model.now column count model.now.blocks v.items)
        (RegionColumnFaultStands model.now column count) }
{
    let mut regions = Vec::new(alloc);
    for b in 0..model.len() {
        let Some(region) = region_in(model.column(column, b), count) else {
            return Err(RegionColumnFault::NoRegion(b));
        };
        if regions.push(region).is_err() {
            return Err(RegionColumnFault::NoMemory);
        }
    }
    Ok(regions)
}
