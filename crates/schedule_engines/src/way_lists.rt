//! Lists what some blocks are worth and use by one of the ways to treat them, each block at its place in their list.

ghost use Rattle.std.specs.Prelude.{◌≡◌, ◌<◌, ◌≤◌, ◌*◌, ◌/◌, ◌%◌, ℕ, pos, length, slice_index, slice_index_or, All, IfOk};
ghost use Rattle.mine_inputs.specs.Ways.{ways_valued, worth_valued};
ghost use Rattle.mine_inputs.specs.Worths.{blocks_valued};
ghost use Rattle.schedule_engines.specs.Choice.{AreListed, amount_by};

use crate::choice::{Amounts, push_use, push_worth, use_by};
use fixed_worth::MOST_BLOCKS;
use mine_inputs::Worths;
use periods_file::Periods;
use shells::Factor;
use std::alloc::{AllocError, Global};

/// What the blocks of a list are worth by a way, in billionths.
///
/// # Errors
/// Memory was refused.
pub fn worths_by_way(
    alloc: Global,
    worths: &Worths,
    factor: Factor,
    kept: &[u32],
    way: u32,
) -> Result<Vec<i128>, AllocError>
    requires { All (λ b. b < blocks_valued worths.now) kept.now }
    ensures { IfOk result (λ v. (length v.items ≡ length kept.now) × ((i : ℕ) → i < length kept.now
        → slice_index_or v.items i (pos 0)
        ≡ worth_valued worths.now factor way (slice_index kept.now i))) }
{
    let mut nanos: Vec<i128> = Vec::new(alloc);
    for i in 0..kept.len() {
        push_worth(&mut nanos, worths.worth_by(kept[i], way, factor))?;
    }
    Ok(nanos)
}

// What the block at a place of rows uses by a way: rows have the blocks of a list, one for each resource.
fn use_at(uses: Amounts<'_>, kept: &[u32], i: u32, way: u32) -> u64
    requires few { length uses.shared.now ≤ 8 }
    requires blocks { uses.blocks ≤ MOST_BLOCKS }
    requires less { length kept.now ≤ MOST_BLOCKS }
    requires known { All (λ b. b < uses.blocks) kept.now }
    requires place { i < length uses.shared.now * length kept.now }
    ensures { result
        ≡ amount_by uses.entry.amounts.now uses.entry.shared.now uses.entry.ways uses.entry.blocks
        (i / length kept.now) way (slice_index kept.now (i % length kept.now)) }
{
    let count = kept.len() as u32;
    use_by(uses, i / count, way, kept[(i % count) as usize])
}

// What the blocks of a list use by a way.
fn uses_of_listed(
    alloc: Global,
    uses: Amounts<'_>,
    kept: &[u32],
    way: u32,
) -> Result<Vec<u64>, AllocError>
    requires few { length uses.shared.now ≤ 8 }
    requires blocks { uses.blocks ≤ MOST_BLOCKS }
    requires less { length kept.now ≤ MOST_BLOCKS }
    requires known { All (λ b. b < uses.blocks) kept.now }
    ensures { IfOk result
        (λ v. AreListed (length uses.entry.shared.now * length kept.now)
        (λ i. amount_by uses.entry.amounts.now uses.entry.shared.now uses.entry.ways
        uses.entry.blocks
        (i / length kept.now) way (slice_index kept.now (i % length kept.now))) v.items) }
{
    let mut listed: Vec<u64> = Vec::new(alloc);
    for i in 0..uses.shared.len() as u32 * kept.len() as u32 {
        push_use(&mut listed, use_at(uses, kept, i, way))?;
    }
    Ok(listed)
}

/// What the blocks of a list use by a way, row by row for each resource, of so many blocks whose uses by each way were
/// read.
///
/// # Errors
/// Memory was refused.
pub fn uses_by_way(
    alloc: Global,
    worths: &Worths,
    periods: &Periods,
    uses: &[u64],
    kept: &[u32],
    way: u32,
) -> Result<Vec<u64>, AllocError>
    requires few { length periods.now.shared.items ≤ 8 }
    requires less { length kept.now ≤ MOST_BLOCKS }
    requires known { All (λ b. b < blocks_valued worths.now) kept.now }
    ensures { IfOk result
        (λ v. AreListed (length periods.now.shared.items * length kept.now)
        (λ i. amount_by uses.now periods.now.shared.items (ways_valued worths.now)
        (blocks_valued worths.now)
        (i / length kept.now) way (slice_index kept.now (i % length kept.now))) v.items) }
{
    let amounts = Amounts {
        amounts: uses,
        shared: periods.shared.as_slice(),
        ways: worths.way_count(),
        blocks: worths.len(),
    };
    uses_of_listed(alloc, amounts, kept, way)
}
