//! Makes the figures of some blocks by each way to treat them.

ghost use Rattle.std.specs.Prelude.{◌≡◌, ◌+◌, ◌<◌, ◌≤◌, ◌++◌, ◌∷◌, [], ℕ, Some, length, slice_index_or, All, IfErr, IfOk, IsErrOf, OnOk};
ghost use Rattle.fixed_worth.specs.declared.limits.TheConstants.{MOST_BLOCKS};
ghost use Rattle.mine_inputs.specs.Ways.{ways_valued, worth_valued};
ghost use Rattle.mine_inputs.specs.Worths.{blocks_valued};
ghost use Rattle.engine_faults.specs.declared.engine_fault.EngineFault.TheVariants as engine;
ghost use Rattle.periods_file.specs.Periods.{periods_view};
ghost use Rattle.schedule_engines.specs.Choice.{AreListed};
ghost use Rattle.schedule_engines.specs.declared.plan_fault.PlanFault.TheVariants as plan;
ghost use Rattle.production_figures.specs.Figures.{FiguresView};
ghost use Rattle.sub_mines.specs.Renumbered.{number_in};
ghost use Rattle.planned_mine.specs.declared.bound_fault.BoundFault.TheVariants as bound;
ghost use Rattle.planned_mine.specs.PlannedNodes.{AreWayFigures, IsFiguresBy, used_valued};
ghost use Rattle.planned_mine.specs.TextFaults.{IsBeyondTexts};

use crate::bound_fault::BoundFault;
use crate::bound_inputs::BesideRead;
use closure_net::NetFault;
use engine_faults::EngineFault;
use mine_inputs::Worths;
use production_figures::Figures;
use schedule_engines::{PeriodsProblem, PlanFault, uses_by_way, worths_by_way};
use shells::Factor;
use std::alloc::{AllocError, Global};

/// The figures of some blocks by each way, and the prices of periods.
#[derive(Drop)]
pub(crate) struct WayFigures {
    /// Those of the first way.
    pub figures: Figures,
    /// Those of each other way.
    pub others: Vec<Figures>,
    /// The price of each resource in each period, row by row.
    pub prices: Vec<u64>,
}

// Adds the number of a block.
fn push_block(blocks: &mut Vec<u32>, block: u32) -> Result<(), AllocError>
    ensures { OnOk result (blocks.new.items ≡ blocks.old.items ++ block ∷ []) }
{
    blocks.push(block)?;
    Ok(())
}

/// The numbers of n blocks.
///
/// # Errors
/// Memory was refused.
pub(crate) fn all_of(alloc: Global, n: u32) -> Result<Vec<u32>, AllocError>
    ensures { IfOk result (λ v. AreListed n (λ b. b) v.items) }
{
    let mut blocks: Vec<u32> = Vec::new(alloc);
    for b in 0..n {
        push_block(&mut blocks, b)?;
    }
    Ok(blocks)
}

// The figures of the listed blocks by one way.
fn figures_of_way(
    alloc: Global,
    worths: &Worths,
    factor: Factor,
    beside: &BesideRead,
    kept: &[u32],
    way: u32,
) -> Result<Figures, BoundFault>
    requires few { length beside.now.periods.shared.items ≤ 8 }
    requires less { length kept.now ≤ MOST_BLOCKS }
    requires known { All (λ b. b < blocks_valued worths.now) kept.now }
    ensures is { IfOk result (IsFiguresBy (length kept.now) (periods_view beside.now.periods)
        (λ i. worth_valued worths.now factor way (number_in kept.now i))
        (λ r i. used_valued worths.now beside.now r way (number_in kept.now i))) }
    ensures no_device { ¬ IsErrOf result (bound.Plan (plan.Engine engine.Device)) }
    ensures beyond { IfErr result IsBeyondTexts }
{
    let periods = &beside.periods;
    let nanos = worths_by_way(alloc, worths, factor, kept, way)?;
    let uses = uses_by_way(alloc, worths, periods, beside.uses.as_slice(), kept, way)?;
    let weights = Vec::from_slice(alloc, periods.weights.as_slice())?;
    let capacities = Vec::from_slice(alloc, periods.capacities.as_slice())?;
    let count = periods.shared.as_slice().len() as u32;
    match Figures::new(nanos, weights, count, uses, capacities) {
        Some(figures) => Ok(figures),
        None => Err(BoundFault::Plan(PlanFault::Periods(PeriodsProblem::TooLarge))),
    }
}

// Adds the figures of a way.
fn push_figures(others: &mut Vec<Figures>, figures: Figures) -> Result<(), BoundFault>
    ensures is { OnOk result (others.new.items ≡ others.old.items ++ figures ∷ []) }
    ensures no_device { ¬ IsErrOf result (bound.Plan (plan.Engine engine.Device)) }
    ensures beyond { IfErr result IsBeyondTexts }
{
    match others.push(figures) {
        Ok(()) => Ok(()),
        Err(_) => Err(BoundFault::Plan(PlanFault::Engine(EngineFault::Memory))),
    }
}

// The figures of the listed blocks by each way but the first.
fn figures_of_others(
    alloc: Global,
    worths: &Worths,
    factor: Factor,
    beside: &BesideRead,
    kept: &[u32],
) -> Result<Vec<Figures>, BoundFault>
    requires few { length beside.now.periods.shared.items ≤ 8 }
    requires less { length kept.now ≤ MOST_BLOCKS }
    requires known { All (λ b. b < blocks_valued worths.now) kept.now }
    ensures count { IfOk result (λ v. length v.items ≡ ways_valued worths.now) }
    ensures each { IfOk result (λ v. (k : ℕ) (g : FiguresView) → k < length v.items
        → IsFiguresBy (length kept.now) (periods_view beside.now.periods)
        (λ i. worth_valued worths.now factor (k + 1) (number_in kept.now i))
        (λ r i. used_valued worths.now beside.now r (k + 1) (number_in kept.now i))
        (slice_index_or v.items k g)) }
    ensures no_device { ¬ IsErrOf result (bound.Plan (plan.Engine engine.Device)) }
    ensures beyond { IfErr result IsBeyondTexts }
{
    let mut others: Vec<Figures> = Vec::new(alloc);
    for k in 0..worths.way_count() {
        let figures = match figures_of_way(alloc, worths, factor, beside, kept, k + 1) {
            Ok(figures) => figures,
            Err(fault) => return Err(fault),
        };
        match push_figures(&mut others, figures) {
            Ok(()) => {}
            Err(fault) => return Err(fault),
        }
    }
    Ok(others)
}

// The prices of periods.
fn prices_of(alloc: Global, beside: &BesideRead) -> Result<Vec<u64>, BoundFault>
    ensures is { IfOk result
        (λ v. (periods_view beside.now.periods).multipliers ≡ Some v.items) }
    ensures no_device { ¬ IsErrOf result (bound.Plan (plan.Engine engine.Device)) }
    ensures beyond { IfErr result IsBeyondTexts }
{
    match &beside.periods.multipliers {
        Some(prices) => match Vec::from_slice(alloc, prices.as_slice()) {
            Ok(prices) => Ok(prices),
            Err(_) => Err(BoundFault::Plan(PlanFault::Engine(EngineFault::Memory))),
        },
        // periods were read with prices
        None => {
            let fault = EngineFault::Model(NetFault::WrongLength);
            Err(BoundFault::Plan(PlanFault::Engine(fault)))
        }
    }
}

/// The figures of the listed blocks by each way, and the prices of periods.
///
/// # Errors
/// `Periods` with `TooLarge` where a figure is too large; `Memory` where memory is refused.
pub(crate) fn figures_of_ways(
    alloc: Global,
    worths: &Worths,
    factor: Factor,
    beside: &BesideRead,
    kept: &[u32],
) -> Result<WayFigures, BoundFault>
    requires few { length beside.now.periods.shared.items ≤ 8 }
    requires less { length kept.now ≤ MOST_BLOCKS }
    requires known { All (λ b. b < blocks_valued worths.now) kept.now }
    ensures are { IfOk result (λ x. AreWayFigures (length kept.now) (ways_valued worths.now)
        (λ way i. worth_valued worths.now factor way (number_in kept.now i))
        (λ r way i. used_valued worths.now beside.now r way (number_in kept.now i))
        (periods_view beside.now.periods) x.figures x.others.items) }
    ensures prices { IfOk result
        (λ x. (periods_view beside.now.periods).multipliers ≡ Some x.prices.items) }
    ensures no_device { ¬ IsErrOf result (bound.Plan (plan.Engine engine.Device)) }
    ensures beyond { IfErr result IsBeyondTexts }
{
    let prices = match prices_of(alloc, beside) {
        Ok(prices) => prices,
        Err(fault) => return Err(fault),
    };
    let figures = match figures_of_way(alloc, worths, factor, beside, kept, 0) {
        Ok(figures) => figures,
        Err(fault) => return Err(fault),
    };
    let others = match figures_of_others(alloc, worths, factor, beside, kept) {
        Ok(others) => others,
        Err(fault) => return Err(fault),
    };
    Ok(WayFigures {
        figures,
        others,
        prices,
    })
}
