//! Who precedes whom among some blocks of a grid: their places in a list are their numbers, and no pair is held.

ghost use Rattle.std.specs.Prelude.{◌≡◌, ◌<◌, ◌≤◌, All, IfOk, length};
ghost use Rattle.places.specs.Implied.{implied};
ghost use Rattle.places.specs.Grids.{gridded, block_in as block_in_cell};
ghost use Rattle.closure_net.specs.Network.{IsAscending};
ghost use Rattle.sub_mines.specs.Renumbered.{IsPartPairs};
ghost use Rattle.sub_mines.specs.AmongGrids.{among};

use crate::among::places_of;
use places::{Grid, Precedence};
use std::alloc::{AllocError, Global};
use std::marker::Model;

/// Some blocks of a grid, numbered by their places in a list. The block to which a way leads is looked up in the grid,
/// and its place in a table of all blocks.
#[derive(Drop)]
pub struct AmongGrid<'a> {
    grid: &'a Grid,
    kept: &'a [u32],
    // of each block of the grid its place among the kept ones and 1 more, or 0
    places: Vec<u32>,
}

impl<'a> Model for AmongGrid<'a> {
    ghost use Rattle.sub_mines.specs.AmongGrids.{AmongView, AreAmong};

    ghost Value = { AmongView };

    ghost view = { λ a. record { grid = a.grid.now; kept = a.kept.now; places = a.places.items } };

    ghost invariant = { λ a. AreAmong (record {
      grid = a.grid.now;
      kept = a.kept.now;
      places = a.places.items;
    }) };
}

// The place of a block, of one more than it, if it is kept.
fn place_in(place: u32) -> Option<u32>
    ensures { result ≡ block_in_cell place }
{
    if place == 0 { None } else { Some(place - 1) }
}

impl<'a> AmongGrid<'a> {
    /// The blocks of this list alone.
    ///
    /// # Errors
    /// Where memory is refused.
    pub fn of(alloc: Global, grid: &'a Grid, kept: &'a [u32]) -> Result<AmongGrid<'a>, AllocError>
        requires ascending { IsAscending kept.now }
        requires below { All (λ b. b < length grid.now.lows) kept.now }
        requires size { length kept.now ≤ length grid.now.lows }
        ensures blocks { IfOk result (λ a. (among a).blocks ≡ length kept.now) }
        ensures part { IfOk result (λ a. IsPartPairs kept.now
            (implied (gridded grid.now)).pairs (implied (among a)).pairs) }
    {
        // proof: what is known of every grid
        let blocks = Precedence::len(grid);
        let places = places_of(alloc, blocks, kept)?;
        Ok(AmongGrid { grid, kept, places })
    }
}

impl<'a> Precedence for AmongGrid<'a> {
    ghost use Rattle.sub_mines.specs.AmongGrids.{among};

    ghost shown = { among };

    fn len(&self) -> u32 {
        // proof: a grid has few blocks
        let _blocks = Precedence::len(self.grid);
        self.kept.len() as u32
    }

    fn ways(&self, b: u32) -> u32 {
        self.grid.ways(self.kept[b as usize])
    }

    fn way(&self, b: u32, k: u32) -> Option<u32> {
        match self.grid.way(self.kept[b as usize], k) {
            Some(p) => place_in(self.places[p as usize]),
            None => None,
        }
    }

    fn has(&self, b: u32, p: u32) -> bool {
        // proof: a grid has few blocks
        let _blocks = Precedence::len(self.grid);
        p < self.kept.len() as u32 && self.grid.has(self.kept[b as usize], self.kept[p as usize])
    }
}
