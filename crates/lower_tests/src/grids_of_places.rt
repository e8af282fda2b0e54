//! Tries grids of places: over made-up mines with holes, negative places and two regions, whether each block rests on
//! just the blocks that the slope of its own region lists; and pairs that are held by places beside lists of them.

use blocks_file::{BlockModel, read_blocks};
use held_pairs::held_by_region;
use places::{Grid, GridFault, HeldRef, Precedence, grid_of};
use prec_file::Predecessors;
use slope::{RegionFault, predecessors_by_region, predecessors_of};
use slope_offsets::{Pattern, Selection, Up};
use std::alloc::Global;
use std::process::Abort;
use std::test::Fail;

// The next of numbers that look like chance.
fn next(seed: u32) -> u32 {
    let wide = seed as u64 * 1_664_525 + 1_013_904_223;
    (wide % 4_294_967_296) as u32
}

// A box of five by four by three places about the origin, of which a quarter are empty. In the one column stands a
// block's region, 0 or 1.
fn mine_text(alloc: Global, mut seed: u32) -> Result<String, Fail> {
    let mut text = String::new(alloc);
    let mut block: u32 = 0;
    for cell in 0..60 {
        seed = next(seed);
        if seed / 65_536 % 4 > 0 {
            let place = (cell % 5 - 2, cell / 5 % 4 - 1, cell / 20 - 1);
            let region = seed / 262_144 % 2;
            let line = format!(in alloc;
                "{} {} {} {} {}\n",
                block, place.0, place.1, place.2, region
            )?;
            text.push_str(&line)?;
            block = block.saturating_add(1);
        }
    }
    Ok(text)
}

// A region for each block, 0 or 1.
fn regions_of(alloc: Global, model: &BlockModel, mut seed: u32) -> Result<Vec<u8>, Fail> {
    let mut regions = Vec::new(alloc);
    for _ in 0..model.len() {
        seed = next(seed);
        regions.push((seed / 65_536 % 2) as u8)?;
    }
    Ok(regions)
}

// Whether the ways of a block lead to just these blocks, and it rests on just these.
fn leads_to(grid: &Grid, b: u32, list: &Predecessors) -> bool {
    let n = grid.len();
    if b >= n || b >= list.len() {
        return false;
    }
    let mut ways: usize = 0;
    for k in 0..grid.ways(b) {
        if let Some(p) = grid.way(b, k) {
            if list.find(b, p).is_none() {
                return false;
            }
            ways = ways.saturating_add(1);
        }
    }
    for p in 0..n {
        if grid.has(b, p) != list.find(b, p).is_some() {
            return false;
        }
    }
    ways == list.above(b).len()
}

// Whether each block, by its region, leads to the blocks of one list or of the other.
fn all_lead(grid: &Grid, regions: &[u8], first: &Predecessors, second: &Predecessors) -> bool {
    for b in 0..grid.len() {
        let is_first = regions.get(b as usize) == Some(&0);
        if is_first && !leads_to(grid, b, first) {
            return false;
        }
        if !is_first && !leads_to(grid, b, second) {
            return false;
        }
    }
    true
}

// These lists of offsets, one a region.
fn slopes_of(
    alloc: Global,
    first: &[(i32, i32, i32)],
    second: &[(i32, i32, i32)],
) -> Result<Vec<Vec<(i32, i32, i32)>>, Fail> {
    let mut slopes = Vec::new(alloc);
    slopes.push(Vec::from_slice(alloc, first)?)?;
    slopes.push(Vec::from_slice(alloc, second)?)?;
    Ok(slopes)
}

// The grid of a model with these patterns, one a region, if there is one.
fn grid_by(
    alloc: Global,
    model: &BlockModel,
    seed: u32,
    patterns: &[Pattern; 2],
    up: Up,
) -> Result<Option<Grid>, Fail> {
    let regions = regions_of(alloc, model, seed)?;
    let slopes = slopes_of(alloc, patterns[0].offsets(), patterns[1].offsets())?;
    Ok(grid_of(alloc, model, regions, &slopes, up).ok())
}

// Whether a grid of these patterns agrees with what they list.
fn agrees(alloc: Global, seed: u32, patterns: &[Pattern; 2], up: Up) -> Result<bool, Fail> {
    let text = mine_text(alloc, seed)?;
    let model = read_blocks(alloc, text.as_bytes(), &[])?;
    let first = predecessors_of(alloc, &model, &patterns[0], up, Selection::Every)?;
    let second = predecessors_of(alloc, &model, &patterns[1], up, Selection::Every)?;
    let regions = regions_of(alloc, &model, seed)?;
    match grid_by(alloc, &model, seed, patterns, up)? {
        Some(grid) => Ok(grid.len() == model.len() && all_lead(&grid, &regions, &first, &second)),
        None => Ok(false),
    }
}

#[test]
fn grids_agree_with_slopes(rt: HostRuntime) -> Result<(), Fail> {
    let alloc: Global = rt.alloc();
    let patterns = [Pattern::nine(alloc)?, Pattern::cone(alloc, 2, 3, 2)?];
    for seed in 0..50 {
        assert!(rt; agrees(alloc, seed, &patterns, Up::PlusZ)?);
        assert!(rt; agrees(alloc, seed, &patterns, Up::MinusZ)?);
    }
    Ok(())
}

// The fault of a text's blocks in one region with one offset, if there is one.
fn fault_of(
    alloc: Global,
    text: &[u8],
    offset: (i32, i32, i32),
) -> Result<Option<GridFault>, Fail> {
    let model = read_blocks(alloc, text, &[])?;
    let regions = vec![in alloc; 0; model.len() as usize]?;
    let mut slopes = Vec::new(alloc);
    slopes.push(vec![in alloc; offset; 1]?)?;
    Ok(grid_of(alloc, &model, regions, &slopes, Up::PlusZ).err())
}

#[test]
fn faults_of_grids(rt: HostRuntime) -> Result<(), Fail> {
    let alloc: Global = rt.alloc();
    let twice = b"0 0 0 0\n1 1 0 0\n2 0 0 1\n3 1 0 0\n4 0 0 0\n";
    assert_eq!(rt;
        fault_of(alloc, twice, (0, 0, 1))?,
        Some(GridFault::SamePlace(1, 3))
    );
    let apart = b"0 -2147483648 0 0\n1 2147483647 0 1\n";
    assert_eq!(rt;
        fault_of(alloc, apart, (0, 0, 1))?,
        Some(GridFault::TooWide)
    );
    assert_eq!(rt;
        fault_of(alloc, b"0 0 0 0\n", (0, 0, 0))?,
        Some(GridFault::TooWide)
    );
    assert_eq!(rt; fault_of(alloc, b"0 0 0 0\n", (0, 0, 1))?, None);
    Ok(())
}

// The mine of a seed, with the column of its regions.
fn mine_of_regions(alloc: Global, seed: u32) -> Result<BlockModel, Fail> {
    let text = mine_text(alloc, seed)?;
    Ok(read_blocks(alloc, text.as_bytes(), &[0])?)
}

// Whether the pairs that are held are just those of the list.
fn are_held(held: HeldRef<'_>, list: &Predecessors) -> bool {
    let n = held.blocks();
    if n != list.len() {
        return false;
    }
    for b in 0..n {
        for p in 0..n {
            if held.has(b, p) != list.find(b, p).is_some() {
                return false;
            }
        }
    }
    true
}

// The offsets of a region, and of a second one, one of them twice.
const FIRST: [(i32, i32, i32); 5] = [(0, 0, 1), (1, 0, 1), (-1, 0, 1), (0, 1, 1), (0, -1, 1)];

const SECOND: [(i32, i32, i32); 5] = [(0, 0, 1), (1, -1, 1), (0, 0, 2), (1, -1, 1), (-4, 3, 2)];

// The offsets of two regions.
fn two_regions(alloc: Global) -> Result<Vec<Vec<(i32, i32, i32)>>, Fail> {
    slopes_of(alloc, &FIRST, &SECOND)
}

#[test]
fn held_pairs_are_those_of_lists(rt: HostRuntime) -> Result<(), Fail> {
    let alloc: Global = rt.alloc();
    let slopes = two_regions(alloc)?;
    for seed in 0..50 {
        let model = mine_of_regions(alloc, seed)?;
        for up in [Up::PlusZ, Up::MinusZ] {
            let held = held_by_region(alloc, &model, &slopes, up)?;
            let list = predecessors_by_region(alloc, &model, &slopes, up, Selection::Every)?;
            assert!(rt; matches!(held.as_ref(), HeldRef::Placed(_)));
            assert!(rt; are_held(held.as_ref(), &list));
        }
    }
    Ok(())
}

#[test]
fn faults_of_held_pairs_are_those_of_lists(rt: HostRuntime) -> Result<(), Fail> {
    let alloc: Global = rt.alloc();
    let slopes = two_regions(alloc)?;
    let twice = read_blocks(alloc, b"0 0 0 0 0\n1 1 0 0 1\n2 1 0 0 7\n", &[0])?;
    assert_eq!(rt;
        held_by_region(alloc, &twice, &slopes, Up::PlusZ).err(),
        Some(RegionFault::SamePlace(1, 2))
    );
    let outside = read_blocks(alloc, b"0 0 0 0 0\n1 1 0 0 2\n", &[0])?;
    assert_eq!(rt;
        held_by_region(alloc, &outside, &slopes, Up::PlusZ).err(),
        Some(RegionFault::UnknownRegion(1))
    );
    // a box that is too wide for a grid: the pairs are listed
    let apart = read_blocks(alloc, b"0 -2147483648 0 0 0\n1 2147483647 0 1 0\n", &[0])?;
    let held = held_by_region(alloc, &apart, &slopes, Up::PlusZ)?;
    assert!(rt; matches!(held.as_ref(), HeldRef::Listed(_)));
    let list = predecessors_by_region(alloc, &apart, &slopes, Up::PlusZ, Selection::Every)?;
    assert!(rt; are_held(held.as_ref(), &list));
    Ok(())
}
