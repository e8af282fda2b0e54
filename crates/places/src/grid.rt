//! Blocks in the cells of a padded box: the block at an offset is found by one sum and one look.

ghost use Rattle.std.specs.Prelude.{◌≡◌, ◌<◌, IsTrue, IfOk, MatchResult, length};
ghost use Rattle.places.specs.Grids.{GridFaultStands, RegionsFit, LeadAway, CellsFit};
ghost use Rattle.places.specs.Grids as spec;

use crate::Precedence;
use crate::cells::{GridFault, cells_of};
use fixed_worth::MOST_BLOCKS;
use std::alloc::Global;
use std::marker::Model;

/// What a grid is made of.
#[derive(Drop)]
pub struct GridParts {
    /// The cell of each block, in the box without padding on its low sides.
    pub lows: Vec<u32>,
    /// The region of each block.
    pub regions: Vec<u8>,
    /// What leads from there to the block's own cell.
    pub centre: u32,
    /// Where the deltas of each region begin, up to the last one's end.
    pub starts: Vec<u32>,
    /// The cells of the offsets, raised by the padding.
    pub deltas: Vec<u32>,
    /// No block's cell is as high.
    pub inner: u32,
    /// No offset's cell is as high.
    pub reach: u32,
    /// How many cells the padded box has.
    pub count: u32,
}

/// Blocks in the cells of a padded box, with the deltas of each region's offsets.
#[derive(Drop)]
pub struct Grid {
    // the cell of each block in the box without padding on the low sides
    lows: Vec<u32>,
    // the region of each block
    regions: Vec<u8>,
    // what leads from there to the block's own cell
    centre: u32,
    // where the deltas of each region begin, up to the last one's end
    starts: Vec<u32>,
    // the cells of the offsets, raised by the padding
    deltas: Vec<u32>,
    // the block of each cell of the padded box and one, or 0
    cells: Vec<u32>,
}

impl Model for Grid {
    ghost Value = { spec.GridView };

    ghost view = { λ g. record {
      lows = g.lows.items;
      regions = g.regions.items;
      centre = g.centre;
      starts = g.starts.items;
      deltas = g.deltas.items;
      cells = g.cells.items;
    } };

    ghost invariant = { λ g. spec.IsGrid (record {
      lows = g.lows.items;
      regions = g.regions.items;
      centre = g.centre;
      starts = g.starts.items;
      deltas = g.deltas.items;
      cells = g.cells.items;
    }) };
}

// The block of a cell, if one is there.
fn block_in(cell: u32) -> Option<u32>
    ensures { result ≡ spec.block_in cell }
{
    if cell == 0 { None } else { Some(cell - 1) }
}

impl Precedence for Grid {
    ghost use Rattle.places.specs.Grids.{gridded};

    ghost shown = { gridded };

    fn len(&self) -> u32 {
        self.lows.len() as u32
    }

    fn ways(&self, b: u32) -> u32 {
        let region = self.regions[b as usize] as usize;
        self.starts[region + 1].saturating_sub(self.starts[region])
    }

    fn way(&self, b: u32, k: u32) -> Option<u32> {
        let region = self.regions[b as usize] as usize;
        let first = self.starts[region];
        let delta = self.deltas[first as usize + k as usize];
        block_in(self.cells[(self.lows[b as usize] + delta) as usize])
    }

    fn has(&self, b: u32, p: u32) -> bool {
        p < self.lows.len() as u32 && self.leads(b, p)
    }
}

// Whether each block has a region with deltas, and the box has few enough blocks.
fn regions_fit(lows: &[u32], regions: &[u8], starts: &[u32], deltas: &[u32]) -> bool
    ensures { IsTrue result → RegionsFit lows.now regions.now starts.now deltas.now }
{
    lows.len() <= MOST_BLOCKS as usize
        && regions.len() == lows.len()
        && regions.iter().all(|r| (*r as usize) + 1 < starts.len())
        && starts.iter().all(|s| (*s as usize) <= deltas.len())
}

// Whether no delta leads from a block to itself.
fn leads_away(deltas: &[u32], centre: u32) -> bool
    ensures { IsTrue result → LeadAway deltas.now centre }
{
    for delta in deltas {
        if *delta == centre {
            return false;
        }
    }
    true
}

// Whether no sum of a block's cell and a delta, or of it and what leads to its own cell, leaves the padded box.
fn cells_fit(lows: &[u32], deltas: &[u32], centre: u32, inner: u32, reach: u32, count: u32) -> bool
    ensures { IsTrue result → CellsFit lows.now deltas.now centre inner reach count }
{
    lows.iter().all(|c| *c < inner)
        && deltas.iter().all(|d| *d < reach)
        && centre < reach
        && inner as u64 + reach as u64 <= count as u64
}

// Whether the parts fit one another.
fn fit_together(parts: &GridParts) -> bool
    ensures regions { IsTrue result → RegionsFit
        parts.now.lows.items parts.now.regions.items parts.now.starts.items parts.now.deltas.items }
    ensures away { IsTrue result → LeadAway parts.now.deltas.items parts.now.centre }
    ensures cells { IsTrue result → CellsFit parts.now.lows.items parts.now.deltas.items
        parts.now.centre parts.now.inner parts.now.reach parts.now.count }
{
    regions_fit(&parts.lows, &parts.regions, &parts.starts, &parts.deltas)
        && leads_away(&parts.deltas, parts.centre)
        && cells_fit(
            &parts.lows,
            &parts.deltas,
            parts.centre,
            parts.inner,
            parts.reach,
            parts.count,
        )
}

impl Grid {
    /// The grid of these parts.
    ///
    /// # Errors
    /// `TooWide` where they don't fit one another, `SamePlace` with the first block in the cell of an earlier one, and
    /// `NoMemory`.
    pub fn of_parts(alloc: Global, parts: GridParts) -> Result<Grid, GridFault>
        ensures all { IfOk result spec.IsGrid }
        ensures made { MatchResult result
            (λ g. (g.lows ≡ parts.lows.items) × (g.regions ≡ parts.regions.items)
            × (g.centre ≡ parts.centre) × (g.starts ≡ parts.starts.items)
            × (g.deltas ≡ parts.deltas.items))
            (λ e. GridFaultStands parts.lows.items e) }
    {
        if !fit_together(&parts) {
            return Err(GridFault::TooWide);
        }
        match cells_of(alloc, &parts.lows, parts.centre, parts.count) {
            Ok(cells) => {
                let GridParts {
                    lows,
                    regions,
                    centre,
                    starts,
                    deltas,
                    inner: _,
                    reach: _,
                    count: _,
                } = parts;
                Ok(Grid {
                    lows,
                    regions,
                    centre,
                    starts,
                    deltas,
                    cells,
                })
            }
            Err(fault) => Err(fault),
        }
    }

    // The cell to which way k of b leads.
    fn cell_to(&self, b: u32, k: u32) -> u32
        requires known { b < length self.now.lows }
        requires inside { k < spec.ways_at self.now b }
        ensures { result ≡ spec.cell_at self.now b k }
    {
        let first = self.starts[self.regions[b as usize] as usize];
        self.lows[b as usize] + self.deltas[first as usize + k as usize]
    }

    // The cell of a block.
    fn home(&self, p: u32) -> u32
        requires { p < length self.now.lows }
        ensures { result ≡ spec.home_at self.now p }
    {
        self.lows[p as usize] + self.centre
    }

    // Whether a way of b leads to the cell of p.
    fn leads(&self, b: u32, p: u32) -> bool
        requires bottom { b < length self.now.lows }
        requires top { p < length self.now.lows }
        ensures { result ≡ spec.leads_at self.now b p (spec.ways_at self.now b) }
    {
        let home = self.home(p);
        for k in 0..self.ways(b) {
            if self.cell_to(b, k) == home {
                return true;
            }
        }
        false
    }
}
