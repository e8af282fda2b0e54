//! Judges a schedule by all that it is asked for: its blocks, its worth, the pairs that it breaks or digs too early,
//! and where it uses more than there is.

ghost use Rattle.std.specs.Prelude.{◌≡◌, length, IfOk};
ghost use Rattle.production_figures.specs.Figures.{production_of};
ghost use Rattle.schedule_value.specs.Breaking.{period_by};
ghost use Rattle.schedule_value.specs.Judging.{IsJudged, judged_view};

use crate::broken::{BrokenPairs, broken_pairs_of};
use crate::digging::count_dug;
use crate::usage::{Over, overs_of};
use crate::worth::npv_at;
use prec_file::Predecessors;
use production_figures::Figures;
use std::alloc::{AllocError, Global};

/// What a schedule comes to.
#[derive(Drop)]
pub struct Judged {
    /// How many blocks it digs.
    pub count: u32,
    /// What it is worth, in billionths times the unit of the weights.
    pub npv: i128,
    /// The pairs that it breaks.
    pub broken: BrokenPairs,
    /// The pairs of a block that waits for another, and that it digs too early.
    pub early: BrokenPairs,
    /// Where it uses more of a resource than there is, by resource and then by period.
    pub over: Vec<Over>,
}

/// Judges a schedule, which lists the period of each block: a block whose number isn't that of a period isn't dug. By
/// the pairs of `waits` a block waits so many periods for another. The schedule is feasible and keeps that lag exactly
/// where no pair is broken, none is too early and nowhere is more used than there is.
///
/// # Errors
/// Memory was refused.
pub fn judge_schedule(
    alloc: Global,
    predecessors: &Predecessors,
    figures: &Figures,
    schedule: &[u32],
    waits: &Predecessors,
    lag: u32,
) -> Result<Judged, AllocError>
    requires blocks { predecessors.now.blocks ≡ length figures.now.worths }
    requires all { length schedule.now ≡ length figures.now.worths }
    requires waits { waits.now.blocks ≡ length figures.now.worths }
    ensures { IfOk result (λ j. IsJudged (production_of predecessors.now.pairs figures.now)
        (period_by schedule.now) predecessors.now.pairs lag waits.now.pairs (judged_view j)) }
{
    let periods = figures.periods();
    let broken = broken_pairs_of(alloc, schedule, periods, 0, predecessors)?;
    let early = broken_pairs_of(alloc, schedule, periods, lag, waits)?;
    let over = overs_of(alloc, figures, schedule)?;
    let count = count_dug(schedule, periods);
    let npv = npv_at(figures, schedule);
    Ok(Judged {
        count,
        npv,
        broken,
        early,
        over,
    })
}
