//! Gives each block of a schedule its way, and what it is worth and uses by it.

ghost use Rattle.std.specs.Prelude.{◌≡◌, ◌<◌, ◌≤◌, ◌*◌, ◌/◌, ◌%◌, ◌++◌, ◌∷◌, [], ℕ, pos, length, slice_index, slice_index_or, unwrap_or, IfOk, OnOk};
ghost use Rattle.mine_inputs.specs.Ways.{way_valued, worth_valued};
ghost use Rattle.mine_inputs.specs.Worths.{blocks_valued};
ghost use Rattle.schedule_engines.specs.Choice.{AreChosen, AreListed, amount_by, way_chosen};

use crate::plan_read::PlanRead;
use crate::schedule_inputs::periods_in_entries;
use fixed_worth::MOST_BLOCKS;
use mine_inputs::Worths;
use schedule_file::Entry;
use shells::Factor;
use std::alloc::{AllocError, Global};

// The way that a block goes: the one that the schedule names, or the first by which it is worth most.
fn way_of(worths: &Worths, factor: Factor, entry: Entry, b: u32) -> u32
    requires { b < blocks_valued worths.now }
    ensures { result ≡ unwrap_or entry.way (way_valued worths.now factor b) }
{
    match entry.way {
        Some(way) => way,
        None => worths.way_of(b, factor),
    }
}

// Adds the way of a block.
fn push_way(ways: &mut Vec<u32>, way: u32) -> Result<(), AllocError>
    ensures { OnOk result (ways.new.items ≡ ways.old.items ++ way ∷ []) }
{
    ways.push(way)?;
    Ok(())
}

// The ways that blocks go.
fn ways_chosen(
    alloc: Global,
    worths: &Worths,
    factor: Factor,
    entries: &[Entry],
) -> Result<Vec<u32>, AllocError>
    requires all { length entries.now ≡ blocks_valued worths.now }
    requires few { length entries.now ≤ MOST_BLOCKS }
    ensures { IfOk result
        (λ v. AreListed (length entries.now) (way_chosen worths.now factor entries.now) v.items) }
{
    let mut ways: Vec<u32> = Vec::new(alloc);
    for b in 0..entries.len() {
        push_way(&mut ways, way_of(worths, factor, entries[b], b as u32))?;
    }
    Ok(ways)
}

/// Adds what a block is worth.
pub(crate) fn push_worth(nanos: &mut Vec<i128>, worth: i128) -> Result<(), AllocError>
    ensures { OnOk result (nanos.new.items ≡ nanos.old.items ++ worth ∷ []) }
{
    nanos.push(worth)?;
    Ok(())
}

// What blocks are worth by these ways, in billionths.
fn worths_chosen(
    alloc: Global,
    worths: &Worths,
    factor: Factor,
    ways: &[u32],
) -> Result<Vec<i128>, AllocError>
    requires all { length ways.now ≡ blocks_valued worths.now }
    requires few { length ways.now ≤ MOST_BLOCKS }
    ensures { IfOk result (λ v. (length v.items ≡ length ways.now) × ((b : ℕ) → b < length ways.now
        → slice_index_or v.items b (pos 0)
        ≡ worth_valued worths.now factor (slice_index ways.now b) b)) }
{
    let mut nanos: Vec<i128> = Vec::new(alloc);
    for b in 0..ways.len() {
        push_worth(&mut nanos, worths.worth_by(b as u32, ways[b], factor))?;
    }
    Ok(nanos)
}

/// What blocks use by each way, as it was read.
#[derive(Clone, Copy)]
pub(crate) struct Amounts<'a> {
    pub amounts: &'a [u64],
    pub shared: &'a [bool],
    pub ways: u32,
    pub blocks: u32,
}

// A number of a list, and 0 past its end.
fn number_at(numbers: &[u64], place: usize) -> u64
    ensures { result ≡ slice_index numbers.now place }
{
    if place < numbers.len() {
        numbers[place]
    } else {
        0
    }
}

/// What block b uses of resource r by a way, in millionths: by a column for all ways whichever way it goes, and else
/// that of its way; as waste nothing then.
pub(crate) fn use_by(uses: Amounts<'_>, r: u32, way: u32, b: u32) -> u64
    requires few { length uses.shared.now ≤ 8 }
    requires blocks { uses.blocks ≤ MOST_BLOCKS }
    requires resource { r < length uses.shared.now }
    requires block { b < uses.blocks }
    ensures { result
        ≡ amount_by uses.entry.amounts.now uses.entry.shared.now uses.entry.ways uses.entry.blocks r
        way b }
{
    let n = uses.blocks as usize;
    let place = r as usize * n + b as usize;
    if uses.shared[r as usize] {
        number_at(uses.amounts, place)
    } else if way < uses.ways {
        let part = way as usize * (uses.shared.len() * n);
        number_at(uses.amounts, part + place)
    } else {
        0
    }
}

/// Adds what a block uses.
pub(crate) fn push_use(uses: &mut Vec<u64>, amount: u64) -> Result<(), AllocError>
    ensures { OnOk result (uses.new.items ≡ uses.old.items ++ amount ∷ []) }
{
    uses.push(amount)?;
    Ok(())
}

// What blocks use by these ways, row by row for each resource.
fn uses_chosen(alloc: Global, uses: Amounts<'_>, ways: &[u32]) -> Result<Vec<u64>, AllocError>
    requires few { length uses.shared.now ≤ 8 }
    requires blocks { uses.blocks ≤ MOST_BLOCKS }
    requires all { length ways.now ≡ uses.blocks }
    ensures { IfOk result
        (λ v. AreListed (length uses.entry.shared.now * uses.entry.blocks)
        (λ i. amount_by uses.entry.amounts.now uses.entry.shared.now uses.entry.ways
        uses.entry.blocks
        (i / uses.entry.blocks) (slice_index ways.now (i % uses.entry.blocks))
        (i % uses.entry.blocks)) v.items) }
{
    let mut chosen: Vec<u64> = Vec::new(alloc);
    let n = uses.blocks;
    for i in 0..uses.shared.len() as u32 * n {
        let b = i % n;
        push_use(&mut chosen, use_by(uses, i / n, ways[b as usize], b))?;
    }
    Ok(chosen)
}

/// What blocks are worth and use by the ways that they go, and the period of each.
#[derive(Drop)]
pub(crate) struct Chosen {
    /// What blocks are worth, in billionths.
    pub nanos: Vec<i128>,
    /// What blocks use, row by row for each resource.
    pub uses: Vec<u64>,
    /// The period of each block.
    pub schedule: Vec<u32>,
}

/// What blocks are worth and use by a schedule of n blocks that was read, in which each goes the way that it names, or
/// the first by which it is worth most.
///
/// # Errors
/// Memory was refused.
pub(crate) fn lists_chosen(
    alloc: Global,
    worths: &Worths,
    factor: Factor,
    n: u32,
    read: &PlanRead,
) -> Result<Chosen, AllocError>
    requires few { length read.now.periods.shared.items ≤ 8 }
    requires blocks { n ≤ MOST_BLOCKS }
    requires each { length read.now.entries.items ≡ n }
    requires valued { blocks_valued worths.now ≡ n }
    ensures { IfOk result (λ q. AreChosen worths.now factor n read.now q.nanos.items q.uses.items
        q.schedule.items) }
{
    let entries = read.entries.as_slice();
    let ways = ways_chosen(alloc, worths, factor, entries)?;
    let nanos = worths_chosen(alloc, worths, factor, ways.as_slice())?;
    let amounts = Amounts {
        amounts: read.uses.as_slice(),
        shared: read.periods.shared.as_slice(),
        ways: worths.way_count(),
        blocks: n,
    };
    let uses = uses_chosen(alloc, amounts, ways.as_slice())?;
    let schedule = periods_in_entries(alloc, entries)?;
    Ok(Chosen {
        nanos,
        uses,
        schedule,
    })
}
