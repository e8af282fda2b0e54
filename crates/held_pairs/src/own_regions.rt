//! The region of each block as `slope` has it: by the first column of a model, and 0 where it has none.

ghost use Rattle.std.specs.Prelude.{◌≡◌, ◌<◌, ◌≤◌, length, IfSome};
ghost use Rattle.held_pairs.specs.OwnRegions.{AreOwnRegions};

use blocks_file::BlockModel;
use places::{MOST_REGIONS, regions_of};
use std::alloc::Global;

// All blocks are of region 0: no column says in which region one is.
fn first_regions(alloc: Global, model: &BlockModel, count: usize) -> Option<Vec<u8>>
    requires none { length model.now.columns ≡ 0 }
    requires some { 0 < count }
    ensures { IfSome result (λ v. AreOwnRegions model.now count v.items) }
{
    let blocks = model.len();
    match vec![in alloc; 0; blocks as usize] {
        Ok(regions) => Some(regions),
        Err(_) => None,
    }
}

// The region of each block, by the first column.
fn column_regions(alloc: Global, model: &BlockModel, count: usize) -> Option<Vec<u8>>
    requires some { 0 < length model.now.columns }
    requires few { count ≤ MOST_REGIONS }
    ensures { IfSome result (λ v. AreOwnRegions model.now count v.items) }
{
    match regions_of(alloc, model, 0, count) {
        Ok(regions) => Some(regions),
        Err(_) => None,
    }
}

// The region of each block among so many, where each has one.
pub(crate) fn own_regions(alloc: Global, model: &BlockModel, count: usize) -> Option<Vec<u8>>
    ensures { IfSome result (λ v. AreOwnRegions model.now count v.items) }
{
    if count == 0 || count > MOST_REGIONS {
        return None;
    }
    let columns = model.columns();
    if columns == 0 {
        first_regions(alloc, model, count)
    } else {
        column_regions(alloc, model, count)
    }
}
