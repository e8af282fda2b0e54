//! Turns a pit of a part of a mine into one of the mine: gives its blocks the mine's numbers, adds the lower pit, and
//! sums what they are worth.

ghost use Rattle.std.specs.Prelude.{◌≡◌, ℕ, ◌<◌, ◌≤◌, Bool, All, List, IfOk, IfSome, IfNone, length, map};
ghost use Rattle.fixed_worth.specs.declared.limits.TheConstants.{MOST_BLOCKS};
ghost use Rattle.ordered_group.specs.Sets.{worth_in};
ghost use Rattle.prec_file.specs.Rests.{numbers_passing};
ghost use Rattle.closure_net.specs.Network.{IsAscending, holds_of};
ghost use Rattle.closure_net.specs.Mine.{IsBest};
ghost use Rattle.shells.specs.Prices.{priced_count, worth_at};
ghost use Rattle.shells.specs.Series.{mine_at};
ghost use Rattle.sub_mines.specs.Parts.{union_of, difference_of, every_block};
ghost use Rattle.sub_mines.specs.Renumbered.{number_in};
ghost use Rattle.series_pits.specs.PitsAtFactors.{IsProved};
ghost use Rattle.series_pits.specs.Parting.{AreJoined, NoPitStands, NoSumStands};

use crate::best_pits::BestPit;
use crate::shell_rows::ShellRow;
use closure_net::Pit;
use shells::{Factor, Prices};
use std::alloc::{AllocError, Global};

/// The blocks at these places of the list: none exactly where there is no such place.
///
/// # Errors
/// Memory was refused.
pub fn at_places(
    alloc: Global,
    kept: &[u32],
    places: &[u32],
) -> Result<Option<Vec<u32>>, AllocError>
    ensures found { IfOk result (λ o. IfSome o (λ v.
        (v.items ≡ map (number_in kept.now) places.now)
        × All (λ i. i < length kept.now) places.now)) }
    ensures none { IfOk result
        (λ o. IfNone o (¬ (All (λ i. i < length kept.now) places.now))) }
{
    let mut found = Vec::with_capacity(alloc, places.len())?;
    for i in places {
        let place = *i as usize;
        if place >= kept.len() {
            return Ok(None);
        }
        found.push(kept[place])?;
    }
    Ok(Some(found))
}

/// The blocks at all other places than those of the pit.
///
/// # Errors
/// Memory was refused.
pub fn at_others(alloc: Global, kept: &[u32], pit: &Pit) -> Result<Vec<u32>, AllocError>
    requires { length kept.now ≤ MOST_BLOCKS }
    ensures { IfOk result (λ v. v.items ≡ map (number_in kept.now)
        (numbers_passing (difference_of every_block (holds_of pit.now)) (length kept.now))) }
{
    let mut found = Vec::new(alloc);
    let mut near = 0;
    for i in 0..kept.len() {
        if !pit.holds_near(&mut near, i as u32) {
            found.push(kept[i])?;
        }
    }
    Ok(found)
}

// Adds the blocks of an ascending list that are below the bound, from this place on, and gives the place after them.
fn put_below(
    found: &mut Vec<u32>,
    blocks: &[u32],
    from: usize,
    bound: u32,
) -> Result<usize, AllocError>
    requires { from ≤ length blocks.now }
    ensures { (e : ℕ → Bool) → AreJoined e blocks.now from found.old.items
        → IfOk result (λ to. AreJoined e blocks.now to found.new.items) }
{
    for k in from..blocks.len() {
        if bound <= blocks[k] {
            return Ok(k);
        }
        found.push(blocks[k])?;
    }
    Ok(blocks.len())
}

/// The blocks of two ascending lists, ascending.
///
/// # Errors
/// Memory was refused.
pub fn merged(alloc: Global, first: &[u32], second: &[u32]) -> Result<Vec<u32>, AllocError>
    ensures { IfOk result (λ v. (b : ℕ)
        → holds_of v.items b ≡ union_of (holds_of first.now) (holds_of second.now) b) }
{
    let mut found: Vec<u32> = Vec::new(alloc);
    let mut next = 0;
    for b in first {
        next = put_below(&mut found, second, next, *b)?;
        found.push(*b)?;
    }
    for k in next..second.len() {
        found.push(second[k])?;
    }
    Ok(found)
}

// What these blocks are worth together at a factor: none exactly where one of them has no price, or a sum doesn't fit.
fn worth_of(prices: &Prices, blocks: &[u32], factor: Factor) -> Option<i128>
    ensures sum { IfSome result (λ w. (w ≡ worth_in
        (λ i. worth_at prices.now factor (number_in blocks.now i)) every_block (length blocks.now))
        × All (λ b. b < priced_count prices.now) blocks.now) }
    ensures none { IfNone result (NoSumStands prices.now factor blocks.now) }
{
    let mut sum: i128 = 0;
    for b in blocks {
        if *b >= prices.len() {
            return None;
        }
        sum = sum.checked_add(prices.worth(*b, factor))?;
    }
    Some(sum)
}

/// The pit of these blocks at a factor, with what it has: none exactly where they don't ascend, one of them has no
/// price, or a sum of their worths doesn't fit.
pub fn best_with(prices: &Prices, blocks: Vec<u32>, factor: Factor) -> Option<BestPit>
    ensures best { IfSome result (λ best. (pairs : List (ℕ × ℕ))
        → IsBest (mine_at pairs prices.now factor) (holds_of blocks.items)
        → IsProved pairs prices.now best) }
    ensures list { IfSome result (λ _. IsAscending blocks.items
        × All (λ b. b < priced_count prices.now) blocks.items) }
    ensures none { IfNone result (NoPitStands prices.now factor blocks.items) }
{
    // proof: a table has at most so many blocks
    let _ = prices.len();
    let worth = worth_of(prices, blocks.as_slice(), factor)?;
    let pit = Pit::new(blocks)?;
    let row = ShellRow {
        factor: factor.get(),
        blocks: pit.len() as u32,
        worth,
    };
    Some(BestPit { row, pit })
}
