//! Reads what blocks use of the resources, and the blocks for which they wait: columns of a block model. No number of
//! the former may be negative, and each of the latter is that of a block.

ghost use Rattle.std.specs.Prelude.{◌≡◌, ◌+◌, ◌-◌, ◌*◌, ◌/◌, ◌<◌, ◌≤◌, pos, unsigned_abs, ◌++◌, ◌∷◌, [], length, IfOk, IsErrOf, MatchOption, MatchResult, OnOk};
ghost use Rattle.mine_inputs.specs.Limits.{IsWithinLimit};
ghost use Rattle.engine_faults.specs.declared.engine_fault.EngineFault.TheVariants as engine;
ghost use Rattle.engine_faults.specs.declared.engine_fault.Problem.TheVariants as problem;
ghost use Rattle.schedule_engines.specs.declared.plan_fault.PlanFault.TheVariants as plan;
ghost use Rattle.schedule_engines.specs.PlanTexts.{ReadsUses, UsesFail, UsesWrong, WaitsWrong};
ghost use Rattle.schedule_engines.specs.Uses.{AreUses, HasWaits, IsBlock, IsUse, use_in};

use crate::plan_fault::{PeriodsProblem, PlanFault};
use blocks_file::{BlockModel, read_blocks};
use engine_faults::{EngineFault, Problem};
use fixed_worth::MOST_BLOCKS;
use prec_file::{ListedPairs, Predecessors};
use std::alloc::{AllocError, Global};

/// What blocks use, and for which blocks they wait.
#[derive(Drop)]
pub struct Uses {
    /// What each block uses of each resource in millionths, row by row.
    pub amounts: Vec<u64>,
    /// The pairs of a block and one for which it waits.
    pub waits: Predecessors,
}

// What block b uses of resource r, in millionths; none where that is negative.
fn use_of(model: &BlockModel, r: u32, b: u32) -> Option<u64>
    requires column { r < length model.now.columns }
    requires block { b < model.now.blocks }
    ensures { MatchOption result
        (¬ (IsUse (use_in model.now r b)))
        (λ amount. pos amount ≡ use_in model.now r b) }
{
    let amount = model.column(r, b).get();
    if amount < 0 {
        None
    } else {
        Some(amount as u64)
    }
}

// Adds what a block uses.
fn push_use(uses: &mut Vec<u64>, amount: u64) -> Result<(), AllocError>
    ensures { OnOk result (uses.new.items ≡ uses.old.items ++ amount ∷ []) }
{
    uses.push(amount)?;
    Ok(())
}

// What the blocks of a model use of the resources in its first columns, row by row.
fn amounts_of(
    alloc: Global,
    model: &BlockModel,
    resources: u32,
    n: u32,
) -> Result<Vec<u64>, PlanFault>
    requires blocks { n ≤ MOST_BLOCKS }
    requires same { model.now.blocks ≡ n }
    requires few { resources ≤ 8 }
    requires columns { resources ≤ length model.now.columns }
    ensures are { MatchResult result
        (λ v. AreUses model.now resources v.items)
        (UsesWrong model.now resources (length model.now.columns - resources) n) }
    ensures no_device { ¬ IsErrOf result (plan.Engine engine.Device) }
{
    let mut uses: Vec<u64> = Vec::new(alloc);
    for i in 0..resources * n {
        match use_of(model, i / n, i % n) {
            Some(amount) => push_use(&mut uses, amount)?,
            None => {
                let fault = PeriodsProblem::NegativeUse(i / n, i % n);
                return Err(PlanFault::Periods(fault));
            }
        }
    }
    Ok(uses)
}

// The block whose number, in millionths, this is; none where it is that of none of n blocks.
fn block_of(number: i64, n: u32) -> Option<u32>
    ensures { MatchOption result
        (¬ (IsBlock n number))
        (λ a. (a < n) × (number ≡ pos (a * 1000000)) × (a ≡ unsigned_abs number / 1000000)) }
{
    if number < 0 {
        return None;
    }
    let size = number as u64;
    let a = size / 1_000_000;
    if a * 1_000_000 != size || a >= n as u64 {
        return None;
    }
    Some(a as u32)
}

// Adds a pair of a block that waits.
fn push_wait(pairs: &mut Vec<(u32, u32)>, pair: (u32, u32)) -> Result<(), AllocError>
    ensures { OnOk result (pairs.new.items ≡ pairs.old.items ++ pair ∷ []) }
{
    pairs.push(pair)?;
    Ok(())
}

// The pairs that so many columns after the first ones list.
fn waits_of(
    alloc: Global,
    model: &BlockModel,
    first: u32,
    count: u32,
    n: u32,
) -> Result<Predecessors, PlanFault>
    requires blocks { n ≤ MOST_BLOCKS }
    requires same { model.now.blocks ≡ n }
    requires beyond { first ≤ 8 }
    requires few { count ≤ 8 }
    requires columns { length model.now.columns ≡ first + count }
    ensures are { MatchResult result
        (HasWaits model.now first count)
        (WaitsWrong model.now first count n) }
    ensures no_device { ¬ IsErrOf result (plan.Engine engine.Device) }
{
    let mut pairs: Vec<(u32, u32)> = Vec::new(alloc);
    for i in 0..count * n {
        let number = model.column(first + i / n, i % n).get();
        match block_of(number, n) {
            Some(a) => push_wait(&mut pairs, (i % n, a))?,
            None => {
                let fault = PeriodsProblem::UnknownWait(i / n, i % n);
                return Err(PlanFault::Periods(fault));
            }
        }
    }
    Ok(ListedPairs::of(n, pairs).into_predecessors(alloc)?)
}

// What the blocks of a model use and for which they wait, by so many columns of each.
fn uses_in(
    alloc: Global,
    model: &BlockModel,
    resources: u32,
    waits: u32,
    n: u32,
) -> Result<Uses, PlanFault>
    requires blocks { n ≤ MOST_BLOCKS }
    requires few { resources ≤ 8 }
    requires few_waits { waits ≤ 8 }
    requires columns { length model.now.columns ≡ resources + waits }
    ensures are { MatchResult result
        (λ u. (model.now.blocks ≡ n) × AreUses model.now resources u.amounts.items
        × HasWaits model.now resources waits u.waits)
        (UsesWrong model.now resources waits n) }
    ensures no_device { ¬ IsErrOf result (plan.Engine engine.Device) }
{
    if model.len() != n {
        return Err(PlanFault::Periods(PeriodsProblem::BlockCount));
    }
    let amounts = amounts_of(alloc, model, resources, n)?;
    let waits = waits_of(alloc, model, resources, waits, n)?;
    Ok(Uses { amounts, waits })
}

// The columns of resources, and after them those of the blocks for which blocks wait.
fn all_columns(alloc: Global, resources: &[u32], waits: &[u32]) -> Result<Vec<u32>, AllocError>
    ensures { IfOk result (λ v. v.items ≡ resources.now ++ waits.now) }
{
    let mut columns: Vec<u32> = Vec::new(alloc);
    columns.extend_from_slice(resources)?;
    columns.extend_from_slice(waits)?;
    Ok(columns)
}

/// What the n blocks of a text use of the resources in these columns, at most 8, row by row; and for which blocks they
/// wait by others, at most 8 too.
///
/// # Errors
/// `Blocks` for a fault of the text; `Periods` where it has another number of blocks, and else for the first use that
/// is negative, and else for the first block that waits for no block. `Memory` where memory is refused.
pub(crate) fn uses_in_text(
    alloc: Global,
    text: &[u8],
    resources: &[u32],
    waits: &[u32],
    n: u32,
) -> Result<Uses, PlanFault>
    requires few { length resources.now ≤ 8 }
    requires few_waits { length waits.now ≤ 8 }
    requires blocks { n ≤ MOST_BLOCKS }
    requires within { IsWithinLimit text.now }
    ensures read { MatchResult result
        (λ u. ReadsUses n resources.now waits.now text.now u.amounts.items u.waits)
        (UsesFail n resources.now waits.now text.now) }
    ensures size { IfOk result (λ u. u.waits.blocks ≡ n) }
    ensures no_device { ¬ IsErrOf result (plan.Engine engine.Device) }
{
    let columns = all_columns(alloc, resources, waits)?;
    let model = match read_blocks(alloc, text, columns.as_slice()) {
        Ok(model) => model,
        Err(fault) => return Err(PlanFault::Engine(EngineFault::from(fault))),
    };
    let first = resources.len() as u32;
    uses_in(alloc, &model, first, waits.len() as u32, n)
}

// What is answered where a text of blocks is too long.
pub(crate) fn too_long() -> PlanFault
    ensures { result ≡ plan.Engine (engine.Blocks problem.InputTooLong) }
{
    PlanFault::Engine(EngineFault::Blocks(Problem::InputTooLong))
}
