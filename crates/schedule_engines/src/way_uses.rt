//! Reads what blocks use by each way to treat them, and the blocks for which they wait.

ghost use Rattle.std.specs.Prelude.{◌≡◌, ◌+◌, ◌-◌, ◌*◌, ◌^◌, ◌<◌, ◌≤◌, ◌↔◌, ◌++◌, ◌∷◌, [], ℕ, true, false, length, slice_index_or, IfOk, IfSome, IsErrOf, MatchResult, OnOk};
ghost use Rattle.mine_inputs.specs.Limits.{IsWithinLimit};
ghost use Rattle.engine_faults.specs.declared.engine_fault.EngineFault.TheVariants as engine;
ghost use Rattle.periods_file.specs.Periods.{periods_view};
ghost use Rattle.periods_file.specs.ByWay.{width_of};
ghost use Rattle.schedule_engines.specs.declared.plan_fault.PlanFault.TheVariants as plan;
ghost use Rattle.schedule_engines.specs.PlanTexts.{ReadsUses, UsesFail};
ghost use Rattle.schedule_engines.specs.WayUses.{ReadsWayUses, WayUsesFail, columns_by, columns_of};

use crate::plan_fault::PlanFault;
use crate::schedule_inputs::text_from;
use crate::uses::{Uses, too_long, uses_in_text};
use counted_devices::CountedRead;
use fixed_worth::MOST_BLOCKS;
use periods_file::{Periods, width_of};
use std::alloc::{AllocError, Global};

// Whether each of these holds.
fn are_all(shared: &[bool]) -> bool
    ensures { result ≡ true → (r : ℕ) → r < length shared.now
        → slice_index_or shared.now r false ≡ true }
{
    for r in 0..shared.len() {
        if !shared[r] {
            return false;
        }
    }
    true
}

// How many times the columns of a text are read: once where each resource has one column for all ways.
fn parts_of(shared: &[bool], ways: u32) -> u32
    ensures many { result ≤ width_of ways }
    ensures some { 0 < result }
    ensures all { (r : ℕ) → r < length shared.now → slice_index_or shared.now r false ≡ false
        → result ≡ width_of ways }
{
    if are_all(shared) { 1 } else { width_of(ways) }
}

// Adds the column of a resource.
fn push_column(columns: &mut Vec<u32>, column: u32) -> Result<(), AllocError>
    ensures { OnOk result (columns.new.items ≡ columns.old.items ++ column ∷ []) }
{
    columns.push(column)?;
    Ok(())
}

// The columns of so many resources by a way.
fn columns_by(
    alloc: Global,
    resources: &[u32],
    width: u32,
    count: u32,
    way: u32,
) -> Result<Vec<u32>, AllocError>
    requires count { count ≤ 8 }
    requires size { length resources.now ≡ count * width }
    requires way { way < width }
    ensures is { IfOk result (λ v. v.items ≡ columns_by resources.now width count way) }
    ensures size { IfOk result (λ v. length v.items ≡ count) }
{
    let mut columns: Vec<u32> = Vec::new(alloc);
    for r in 0..count {
        let place = r as usize * width as usize + way as usize;
        push_column(&mut columns, resources[place])?;
    }
    Ok(columns)
}

// Adds what blocks use by a further way.
fn append(all: &mut Vec<u64>, more: &[u64]) -> Result<(), AllocError>
    ensures { OnOk result (all.new.items ≡ all.old.items ++ more.now) }
{
    all.extend_from_slice(more)?;
    Ok(())
}

// What the n blocks of a text use by one way, and for which blocks they wait.
fn uses_by(
    alloc: Global,
    text: &[u8],
    periods: &Periods,
    ways: u32,
    way: u32,
    n: u32,
) -> Result<Uses, PlanFault>
    requires few { length periods.now.shared.items ≤ 8 }
    requires few_waits { length periods.now.waits.items ≤ 8 }
    requires size { length periods.now.resources.items
        ≡ length periods.now.shared.items * width_of ways }
    requires way { way < width_of ways }
    requires blocks { n ≤ MOST_BLOCKS }
    requires within { IsWithinLimit text.now }
    ensures read { MatchResult result
        (λ u. ReadsUses n
        (columns_of ways (periods_view periods.now) way) periods.now.waits.items text.now
        u.amounts.items u.waits)
        (UsesFail n
        (columns_of ways (periods_view periods.now) way) periods.now.waits.items text.now) }
    ensures amounts { IfOk result
        (λ u. length u.amounts.items ≡ length periods.now.shared.items * n) }
    ensures no_device { ¬ IsErrOf result (plan.Engine engine.Device) }
{
    let count = periods.shared.as_slice().len() as u32;
    let width = width_of(ways);
    let columns = columns_by(alloc, periods.resources.as_slice(), width, count, way)?;
    uses_in_text(alloc, text, columns.as_slice(), periods.waits.as_slice(), n)
}

// What the n blocks of a text use by each way, and for which blocks they wait.
fn way_uses_in(
    alloc: Global,
    text: &[u8],
    periods: &Periods,
    ways: u32,
    n: u32,
) -> Result<Uses, PlanFault>
    requires few { length periods.now.shared.items ≤ 8 }
    requires few_waits { length periods.now.waits.items ≤ 8 }
    requires size { length periods.now.resources.items
        ≡ length periods.now.shared.items * width_of ways }
    requires blocks { n ≤ MOST_BLOCKS }
    requires within { IsWithinLimit text.now }
    ensures read { MatchResult result
        (λ u. ReadsWayUses n ways (periods_view periods.now) text.now u.amounts.items u.waits)
        (WayUsesFail n ways (periods_view periods.now) text.now) }
    ensures no_device { ¬ IsErrOf result (plan.Engine engine.Device) }
{
    let Uses { mut amounts, waits } = uses_by(alloc, text, periods, ways, 0, n)?;
    for way in 1..parts_of(periods.shared.as_slice(), ways) {
        let more = uses_by(alloc, text, periods, ways, way, n)?;
        append(&mut amounts, more.amounts.as_slice())?;
    }
    Ok(Uses { amounts, waits })
}

/// What the n blocks of the text of an input use of the resources of periods, way by way and row by row for each
/// resource, where there are so many ways to treat one beside waste; and for which blocks they wait. Where each
/// resource has one column for all ways, there is one such part alone.
///
/// # Errors
/// `Device` where a read fails, and `Blocks` where the input is too long. Then, by the columns of the first way and
/// after it by those of each further one: `Blocks` for a fault of the text; `Periods` where it has another number of
/// blocks, and else for the first use that is negative, and else for the first block that waits for no block.
/// `Memory` where memory is refused.
pub fn way_uses_from<D: CountedRead>(
    alloc: Global,
    from: &mut D,
    periods: &Periods,
    ways: u32,
    n: u32,
) -> Result<Uses, PlanFault>
    requires few { length periods.now.shared.items ≤ 8 }
    requires few_waits { length periods.now.waits.items ≤ 8 }
    requires size { length periods.now.resources.items
        ≡ length periods.now.shared.items * width_of ways }
    requires blocks { n ≤ MOST_BLOCKS }
    requires room { D.failed from.old < 2 ^ 64 - 1 }
    ensures read { IfSome (D.remaining from.old) (λ text. MatchResult result
        (λ u. ReadsWayUses n ways (periods_view periods.now) text u.amounts.items u.waits)
        (WayUsesFail n ways (periods_view periods.now) text)) }
    ensures device { IsErrOf result (plan.Engine engine.Device)
        ↔ (D.failed from.new ≡ D.failed from.old + 1) }
    ensures kept { ¬ IsErrOf result (plan.Engine engine.Device)
        → D.failed from.new ≡ D.failed from.old }
{
    let text = text_from(alloc, from, too_long())?;
    way_uses_in(alloc, text.as_slice(), periods, ways, n)
}
