//! The regions of a model: the pattern of each, and in which region a block is.

ghost use Rattle.std.specs.Prelude.{◌≡◌, ℕ, ◌<◌, ◌≤◌, ◌∷◌, [], false, Some, IfOk, length};
ghost use Rattle.slope_offsets.specs.Offsets.{IsPattern};
ghost use Rattle.slope_offsets.specs.Offsets.{listed_at};
ghost use Rattle.slope.specs.Slopes.{whole_millionths};
ghost use Rattle.slope.specs.Gathering.{HaveRegions, own_by, region_by};

use blocks_file::BlockModel;
use slope_offsets::Pattern;
use std::alloc::{AllocError, Global};

// How many millionths make one.
const MILLION: u64 = 1_000_000;

// The pattern of each region, and whether the first column of a model says in which region a block is. Otherwise all
// blocks are of region 0.
#[derive(Drop)]
pub(crate) struct Ground {
    pub(crate) patterns: Vec<Pattern>,
    pub(crate) by_column: bool,
}

// The region of a block, where what the model says of it is a whole number from 0 on.
pub(crate) fn region_at(model: &BlockModel, by_column: bool, block: u32) -> Option<usize>
    requires { block < model.now.blocks }
    ensures { result ≡ region_by by_column model.now block }
{
    if !by_column || model.columns() == 0 {
        return Some(0);
    }
    whole_in(model.column(0, block).get())
}

// A number of millionths as a whole number from 0 on.
fn whole_in(millionths: i64) -> Option<usize>
    ensures { result ≡ whole_millionths millionths }
{
    if millionths < 0 {
        return None;
    }
    let said = millionths as u64;
    if said % MILLION != 0 {
        return None;
    }
    Some((said / MILLION) as usize)
}

impl Ground {
    // One region, which has every block.
    pub(crate) fn of_one(alloc: Global, pattern: &Pattern) -> Result<Ground, AllocError>
        ensures is { IfOk result
            (λ g. (g.patterns.items ≡ pattern.now ∷ []) × (g.by_column ≡ false)) }
        ensures all { IsPattern pattern.now }
    {
        // proof: the offsets are few, each once and in order
        let _ = pattern.offsets();
        let mut patterns = Vec::new(alloc);
        patterns.push(pattern.copied(alloc)?)?;
        Ok(Ground {
            patterns,
            by_column: false,
        })
    }

    // The region of a block.
    pub(crate) fn region(&self, model: &BlockModel, block: u32) -> usize
        requires known { block < model.now.blocks }
        requires regions { HaveRegions self.now.by_column self.now.patterns.items model.now }
        ensures is { region_by self.now.by_column model.now block ≡ Some result }
        ensures own { own_by self.now.by_column self.now.patterns.items model.now block
            ≡ listed_at self.now.patterns.items result }
        ensures inside { result < length self.now.patterns.items }
    {
        match region_at(model, self.by_column, block) {
            Some(region) => region,
            None => unreachable!(),
        }
    }

    // The most offsets that a region has.
    pub(crate) fn widest(&self) -> usize
        ensures { (r : ℕ) → length (listed_at self.now.patterns.items r) ≤ result }
    {
        let mut most = 0;
        for pattern in &self.patterns {
            most = pattern.offsets().len().max(most);
        }
        most
    }
}
