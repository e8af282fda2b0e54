//! Expands a mine that was read: the nodes of its blocks and periods, their pairs and their worths.

ghost use Rattle.std.specs.Prelude.{◌≡◌, ◌≤◌, ◌*◌, ℕ, ℤ, length, IfErr, IfOk, IsErrOf};
ghost use Rattle.prec_file.specs.Rests.{RestsView};
ghost use Rattle.engine_faults.specs.declared.engine_fault.EngineFault.TheVariants as engine;
ghost use Rattle.periods_file.specs.Periods.{PeriodsView};
ghost use Rattle.schedule_engines.specs.declared.plan_fault.PlanFault.TheVariants as plan;
ghost use Rattle.planned_mine.specs.declared.bound_fault.BoundFault.TheVariants as bound;
ghost use Rattle.planned_mine.specs.PlannedNodes.{IsExpanded, IsFigured, IsSound, IsWholeFigured};
ghost use Rattle.planned_mine.specs.TextFaults.{IsBeyondTexts};

use crate::bound_fault::{BoundFault, of_expansion};
use crate::bound_inputs::BesideRead;
use crate::way_figures::{WayFigures, all_of, figures_of_ways};
use closure_net::NetFault;
use engine_faults::EngineFault;
use expanded_mine::{Waits, node_pairs_of, node_worths_of};
use held_pairs::HeldPairs;
use mine_inputs::Worths;
use places::Held;
use prec_file::Predecessors;
use production_figures::Figures;
use schedule_engines::PlanFault;
use shells::Factor;
use std::alloc::Global;

/// The figures of a mine and its periods, and its pairs.
#[derive(Drop)]
pub struct Figured {
    /// What blocks are worth and use by the first way to treat them, and what periods weigh and have.
    pub figures: Figures,
    /// The same by each other way, that of waste the last.
    pub others: Vec<Figures>,
    /// The price of each resource in each period, row by row.
    pub prices: Vec<u64>,
    /// The predecessors of each block.
    pub predecessors: Predecessors,
    /// Which blocks wait for which, and how long.
    pub waits: Waits,
}

/// The nodes of a mine and its periods, and the figures that they are made of.
#[derive(Drop)]
pub struct Expanded {
    /// What blocks are worth and use by the first way to treat them, and what periods weigh and have.
    pub figures: Figures,
    /// The same by each other way, that of waste the last.
    pub others: Vec<Figures>,
    /// The price of each resource in each period, row by row.
    pub prices: Vec<u64>,
    /// The predecessors of each node.
    pub pairs: HeldPairs,
    /// What each node is worth: the most by any way.
    pub worths: Vec<i128>,
}

/// The figures of a mine and its periods that were read, at this factor, by each way to treat its blocks.
///
/// # Errors
/// `Model` where there are other numbers of blocks; `Periods` with `TooLarge` where a figure is too large; `Memory`
/// where memory is refused.
pub fn figured_of(
    alloc: Global,
    worths: &Worths,
    factor: Factor,
    predecessors: Predecessors,
    beside: BesideRead,
) -> Result<Figured, BoundFault>
    requires { length beside.periods.shared.items ≤ 8 }
    ensures is { IfOk result (IsWholeFigured worths.now factor predecessors beside) }
    ensures sound { IfOk result IsSound }
    ensures no_device { ¬ IsErrOf result (bound.Plan (plan.Engine engine.Device)) }
    ensures beyond { IfErr result IsBeyondTexts }
{
    // the texts of a mine give as many worths as blocks, and its uses are of as many
    let count = predecessors.len();
    if worths.len() != count || beside.waits.len() != count {
        let fault = EngineFault::Model(NetFault::WrongLength);
        return Err(BoundFault::Plan(PlanFault::Engine(fault)));
    }
    let kept = match all_of(alloc, count) {
        Ok(kept) => kept,
        Err(_) => return Err(BoundFault::Plan(PlanFault::Engine(EngineFault::Memory))),
    };
    let found = match figures_of_ways(alloc, worths, factor, &beside, kept.as_slice()) {
        Ok(found) => found,
        Err(fault) => return Err(fault),
    };
    let WayFigures {
        figures,
        others,
        prices,
    } = found;
    let lag = beside.periods.lag;
    let waits = Waits {
        pairs: beside.waits,
        lag,
    };
    Ok(Figured {
        figures,
        others,
        prices,
        predecessors,
        waits,
    })
}

/// The nodes of these figures. Their pairs are told by those of the blocks, and no list of them is made.
///
/// # Errors
/// `Nodes`; `Memory` where memory is refused.
pub fn nodes_of_figures(alloc: Global, figured: Figured) -> Result<Expanded, BoundFault>
    requires sound { IsSound figured }
    ensures is { IfOk result
        (λ x. (rests : RestsView) (ways : ℕ) (worth : ℕ → ℕ → ℤ) (used : ℕ → ℕ → ℕ → ℤ)
        (said : PeriodsView) (waits : RestsView)
        → IsFigured rests ways worth used said waits figured
        → IsExpanded rests ways worth used said waits x.figures x.others.items x.prices.items
        x.pairs x.worths.items) }
    ensures blocks { IfOk result (λ x. x.pairs.blocks
        ≡ length figured.figures.weights * figured.predecessors.blocks) }
    ensures no_device { ¬ IsErrOf result (bound.Plan (plan.Engine engine.Device)) }
    ensures beyond { IfErr result IsBeyondTexts }
{
    let Figured {
        figures,
        others,
        prices,
        predecessors,
        waits,
    } = figured;
    let worths = node_worths_of(
        alloc,
        &figures,
        others.as_slice(),
        prices.as_slice(),
        &waits,
    );
    let base = Held::Listed(predecessors);
    let pairs = match node_pairs_of(base, waits, figures.periods()) {
        Ok(pairs) => pairs,
        Err(fault) => return Err(of_expansion(fault)),
    };
    // that there are too many pairs comes before what nodes are worth
    let worths = match worths {
        Ok(worths) => worths,
        Err(fault) => return Err(of_expansion(fault)),
    };
    Ok(Expanded {
        figures,
        others,
        prices,
        pairs,
        worths,
    })
}
