//! The best pits of a mine at its factors, by halves: the best pit at a factor parts the blocks. Those of lower factors
//! lie within it, and those of higher ones have it, so that each part is solved by itself.

ghost use Rattle.std.specs.Prelude.{◌≡◌, ℕ, ◌<◌, ◌≤◌, ◌++◌, ◌∷◌, [], All, List, cond, nat_lt, IfOk, OnOk, IfSome};
ghost use Rattle.shells.specs.Prices.{PricesView};
ghost use Rattle.series_pits.specs.PitsAtFactors.{IsProved};
ghost use Rattle.series_pits.specs.Parting.{ArePriced, AreHalved, IsLeft, IsSearchLevel};

use crate::best_pits::BestPit;
use crate::mine_parts::{Halved, Part, solved_part, whole};
use crate::series_mine::SeriesMine;
use crate::series_progress::SeriesProgress;
use option_words::Effort;
use std::alloc::{AllocError, Global};
use std::sync::atomic::{AtomicU64, Ordering};
use std::thread::{Threads, map_indices};

// What was found of some parts, and the parts that are left.
#[derive(Drop)]
struct Level {
    found: Vec<BestPit>,
    parts: Vec<Part>,
}

impl Level {
    // Nothing.
    fn new(alloc: Global) -> Level
        ensures { (result.found.items ≡ []) × (result.parts.items ≡ []) }
    {
        Level {
            found: Vec::new(alloc),
            parts: Vec::new(alloc),
        }
    }

    // Takes up a part, unless it has no factor.
    fn keep(&mut self, part: Part) -> Result<(), AllocError>
        ensures same { OnOk result (self.new.found.items ≡ self.old.found.items) }
        ensures parts { OnOk result (self.new.parts.items ≡ self.old.parts.items ++ cond
            (nat_lt part.from part.to) (part ∷ []) []) }
    {
        if part.from < part.to {
            self.parts.push(part)?;
        }
        Ok(())
    }

    // Takes up what a part gave.
    fn take(&mut self, halves: Halved) -> Result<(), AllocError>
        ensures { (pairs : List (ℕ × ℕ)) (prices : PricesView) (factors : List ℕ)
            → IsSearchLevel pairs prices factors self.old → AreHalved pairs prices factors halves
            → OnOk result (IsSearchLevel pairs prices factors self.new) }
    {
        let Halved {
            best,
            lower,
            higher,
        } = halves;
        if let Some(found) = best {
            self.found.push(found)?;
        }
        self.keep(lower)?;
        self.keep(higher)?;
        Ok(())
    }
}

// The next of so many places, from 0, that no thread has taken yet.
fn next_place(count: usize, taken: &AtomicU64) -> Option<usize>
    ensures { IfSome result (λ place. place < count) }
{
    let place = taken.fetch_add(1, Ordering::SeqCst) as usize;
    if place < count { Some(place) } else { None }
}

// At which of its factors a part is solved. The highest of all first: its best pit bounds all others, and often has few
// of a mine's blocks. Then the middle one.
fn first_of(part: &Part, factors: usize) -> usize
    requires { part.now.from < part.now.to }
    ensures { (part.now.from ≤ result) × (result < part.now.to) }
{
    if part.to - part.from == factors {
        part.to - 1
    } else {
        part.from + (part.to - part.from) / 2
    }
}

// What one thread finds: it takes the parts that no other one has taken, one after another.
fn solved_by<T: SeriesProgress>(
    alloc: Global,
    mine: &SeriesMine,
    parts: &[Part],
    taken: &AtomicU64,
    turns: u64,
    gate: &T,
) -> Result<Level, AllocError>
    requires priced { ArePriced mine.now.predecessors.pairs mine.now.prices mine.now.factors.items }
    requires left { All
        (IsLeft mine.now.predecessors.pairs mine.now.prices mine.now.factors.items) parts.now }
    ensures { IfOk result
        (IsSearchLevel mine.now.predecessors.pairs mine.now.prices mine.now.factors.items) }
{
    let factors = mine.factors.as_slice();
    let mut level = Level::new(alloc);
    for _ in 0..parts.len() {
        let Some(next) = next_place(parts.len(), taken) else {
            return Ok(level);
        };
        let part = &parts[next];
        let place = first_of(part, factors.len());
        let halves = solved_part(alloc, mine, part, place, turns)?;
        if halves.best.is_some() {
            gate.settled(factors[place].get(), place as u32 + 1, factors.len() as u32);
        }
        level.take(halves)?;
    }
    Ok(level)
}

// Solves each of these parts, by as many threads as the effort has workers, but by no more than there are parts.
fn level_of<R: Threads + Sync, T: SeriesProgress + Sync>(
    rt: &R,
    alloc: Global,
    mine: &SeriesMine,
    parts: &[Part],
    effort: Effort,
    gate: &T,
) -> Result<Level, AllocError>
    requires priced { ArePriced mine.now.predecessors.pairs mine.now.prices mine.now.factors.items }
    requires left { All
        (IsLeft mine.now.predecessors.pairs mine.now.prices mine.now.factors.items) parts.now }
    ensures { IfOk result
        (IsSearchLevel mine.now.predecessors.pairs mine.now.prices mine.now.factors.items) }
{
    let taken = AtomicU64::new(0);
    let threads = effort.workers as usize;
    let turns = effort.turns;
    let mut answers = map_indices(
        rt,
        alloc,
        threads.min(parts.len()),
        &|_thread: usize| -> Result<Level, AllocError>
            requires { ArePriced mine.now.predecessors.pairs mine.now.prices mine.now.factors.items
                × All (IsLeft mine.now.predecessors.pairs mine.now.prices mine.now.factors.items)
                parts.now }
            ensures { IfOk result
                (IsSearchLevel mine.entry.now.predecessors.pairs mine.entry.now.prices
                mine.entry.now.factors.items) }
        { solved_by(alloc, mine, parts, &taken, turns, gate) },
    )?;
    let mut all = Level::new(alloc);
    while let Some(answer) = answers.pop() {
        let mut level = answer?;
        all.found.append(&mut level.found)?;
        all.parts.append(&mut level.parts)?;
    }
    Ok(all)
}

/// The best pits at a mine's factors that pseudoflow finds within its turns and a check accepts, in no order. They are
/// found by as many threads as the effort has workers, where these can be made.
///
/// # Errors
/// Memory was refused.
pub fn found_beside<R: Threads + Sync, T: SeriesProgress + Sync>(
    rt: &R,
    alloc: Global,
    mine: &SeriesMine,
    effort: Effort,
    gate: &T,
) -> Result<Vec<BestPit>, AllocError>
    ensures { IfOk result
        (λ v. All (IsProved mine.now.predecessors.pairs mine.now.prices) v.items) }
{
    let mut found: Vec<BestPit> = Vec::new(alloc);
    let mut parts: Vec<Part> = Vec::new(alloc);
    // proof: what is known of every list of predecessors, that its pairs are of its blocks and in order
    let _resting = mine.predecessors.len();
    let blocks = mine.prices.len();
    let count = mine.factors.len();
    let all = whole(alloc, blocks, count)?;
    parts.push(all)?;
    for _ in 0..count {
        if parts.is_empty() {
            return Ok(found);
        }
        let mut level = level_of(rt, alloc, mine, parts.as_slice(), effort, gate)?;
        found.append(&mut level.found)?;
        parts = level.parts;
    }
    Ok(found)
}
