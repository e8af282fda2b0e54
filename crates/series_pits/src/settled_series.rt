//! Draws the shells of a mine: solves it at each factor, has each flow checked, and gives the series of nested pits
//! with each pit's count and worth, or why there is none.

ghost use Rattle.std.specs.Prelude.{◌≡◌, ℕ, ◌+◌, ◌<◌, List, take, length, All, Contains, OnOk, IfOk, IfErr, MatchResult};
ghost use Rattle.ordered_group.specs.Block.{scaled_block};
ghost use Rattle.settings_file.specs.Values.{AreFactors};
ghost use Rattle.shells.specs.Series.{IsAboveAll, rests_in};
ghost use Rattle.series_pits.specs.SettledSeries.{IsSettled, NoSeriesStands};
ghost use Rattle.series_pits.specs.PitsAtFactors.{IsAdded, IsProved};

use crate::best_pits::{BestPit, best_in, best_of, net_at};
use crate::mine_halves::found_beside;
use crate::no_series::NoSeries;
use crate::series_mine::SeriesMine;
use crate::series_progress::SeriesProgress;
use crate::shell_rows::ShellRow;
use crate::solver_at::solution_at;
use fixed_worth::MOST_FACTORS;
use held_pairs::rests_of;
use option_words::{Effort, Method};
use pseudoflow::Progress;
use shells::{Factor, Series, SeriesFault};
use solve_engines::solvers::Unsolved;
use std::alloc::{AllocError, Global};
use std::sync::Wait;
use std::thread::Threads;
use workers::Gate;

/// The shells of a mine, and a row for each factor.
#[derive(Drop)]
pub struct Shells {
    /// The series of its best pits.
    pub series: Series,
    /// What each of them has.
    pub rows: Vec<ShellRow>,
}

impl Shells {
    // Adds the best pit at a factor above the others.
    fn add(&mut self, factor: Factor, best: &BestPit) -> Result<(), AllocError>
        requires above { IsAboveAll self.old.series.factors factor }
        requires at { best.now.row.factor ≡ factor }
        requires proved { IsProved self.old.series.pairs self.old.series.prices best.now }
        requires room { length self.old.series.factors < MOST_FACTORS }
        ensures { OnOk result
            (IsAdded self.old.series self.new.series
            self.old.rows.items self.new.rows.items factor) }
    {
        self.series.push_best(factor, &best.pit);
        self.rows.push(best.row)?;
        Ok(())
    }
}

// The best pit of a series' mine at a factor, looked for now: where the method ends with pseudoflow, that gave up on
// it.
fn best_at<R: Threads + Wait + Sync, T: Gate + Progress>(
    rt: &R,
    alloc: Global,
    series: &Series,
    factor: Factor,
    effort: Effort,
    gate: &T,
) -> Result<BestPit, NoSeries>
    ensures best { IfOk result (λ best. (best.row.factor ≡ factor)
        × IsProved series.now.pairs series.now.prices best) }
    ensures fault { IfErr result (λ e. (factors : List ℕ) → Contains factors factor
        → NoSeriesStands scaled_block (rests_in series.now) series.now.prices factors effort e) }
{
    let rests = rests_of(alloc, series.rests())?;
    let net = net_at(rt, alloc, series.prices(), rests, factor)?;
    if effort.method.ends_with_pseudoflow(net.len()) {
        return Err(NoSeries::Unsolved(factor.get(), Unsolved::GaveUp));
    }
    let solution = match solution_at(rt, alloc, &net, effort, gate) {
        Ok(solution) => solution,
        Err(why) => return Err(NoSeries::Unsolved(factor.get(), why)),
    };
    Ok(best_of(factor, solution))
}

// The pits that are wanted: the factors, the pits that were found at some of them beside others, and how the rest are
// looked for.
#[derive(Drop)]
struct WantedPits<'a> {
    factors: &'a [Factor],
    found: &'a [BestPit],
    effort: Effort,
}

impl Shells {
    // Adds the best pit at the factor at this place: the one that was found beside others, or else one that is looked
    // for now.
    fn settle_at<R: Threads + Wait + Sync, T: Gate + Progress + SeriesProgress>(
        &mut self,
        rt: &R,
        alloc: Global,
        wanted: &WantedPits<'_>,
        place: usize,
        gate: &T,
    ) -> Result<(), NoSeries>
        requires inside { place < length wanted.now.factors.now }
        requires form { AreFactors wanted.now.factors.now }
        requires found { All
            (IsProved self.old.series.pairs self.old.series.prices) wanted.now.found.now }
        requires done { IsSettled self.old.series.pairs self.old.series.prices
            (take place wanted.now.factors.now) self.old.series self.old.rows.items }
        ensures settled { OnOk result (IsSettled self.old.series.pairs self.old.series.prices
            (take (place + 1) wanted.now.factors.now) self.new.series self.new.rows.items) }
        ensures fault { IfErr result (λ e. NoSeriesStands scaled_block
            (rests_in self.old.series) self.old.series.prices
            wanted.now.factors.now wanted.now.effort e) }
    {
        let factors = wanted.factors;
        let factor = factors[place];
        if let Some(best) = best_in(wanted.found, factor) {
            return Ok(self.add(factor, best)?);
        }
        let series = &self.series;
        let best = best_at(rt, alloc, series, factor, wanted.effort, gate)?;
        self.add(factor, &best)?;
        gate.settled(factor.get(), place as u32 + 1, factors.len() as u32);
        Ok(())
    }
}

// What pseudoflow finds at the factors, by as many threads as the effort has workers: unless the machine alone was
// asked for, it is tried first on a mine of any size, since a series asks for many pits, of which each takes the
// machine seconds.
fn found_first<R: Threads + Sync, T: SeriesProgress + Sync>(
    rt: &R,
    alloc: Global,
    mine: &SeriesMine,
    effort: Effort,
    gate: &T,
) -> Result<Vec<BestPit>, AllocError>
    ensures { IfOk result
        (λ v. All (IsProved mine.now.predecessors.pairs mine.now.prices) v.items) }
{
    if effort.method == Method::PushRelabel {
        return Ok(Vec::new(alloc));
    }
    found_beside(rt, alloc, mine, effort, gate)
}

/// The shells of a mine at its factors: each factor's mine is solved, a check accepts its flow, and the pit is added to
/// the series, in the order of the factors.
///
/// Unless push-relabel alone was asked for, `found_beside` solves the factors by halves, by pseudoflow: the blocks
/// between two pits that are known make a smaller mine, and as many threads as the effort has workers share the smaller
/// mines of a level. A factor at which that proves no pit is solved afterwards over the whole mine, unless the method
/// ends with pseudoflow. There, and where push-relabel alone was asked for, one factor is solved after another, and the
/// workers are the machine's: one or two run without a lock, and more under one. The pits don't depend on the schedule:
/// a mine has one best pit at a factor.
///
/// # Errors
/// Of the first factor at which no pit is proved: `Unsolved` with the reason, `Model` where an amount of its net
/// doesn't fit. `Memory` where memory is refused.
pub fn settle<R: Threads + Wait + Sync, T: Gate + Progress + SeriesProgress>(
    rt: &R,
    alloc: Global,
    mine: SeriesMine,
    effort: Effort,
    gate: &T,
) -> Result<Shells, NoSeries>
    ensures { MatchResult result
        (λ shells. IsSettled mine.predecessors.pairs mine.prices mine.factors.items
        shells.series shells.rows.items)
        (λ e.
        NoSeriesStands scaled_block mine.predecessors mine.prices mine.factors.items effort e) }
{
    let found = found_first(rt, alloc, &mine, effort, gate)?;
    let SeriesMine {
        prices,
        predecessors,
        factors,
        ..
    } = mine;
    let series = match Series::open(alloc, predecessors, prices) {
        Ok(series) => series,
        Err(SeriesFault::NoMemory) => return Err(NoSeries::Memory),
        Err(_) => unreachable!("a mine has a price for each block"),
    };
    let mut shells = Shells {
        series,
        rows: Vec::new(alloc),
    };
    let wanted = WantedPits {
        factors: factors.as_slice(),
        found: found.as_slice(),
        effort,
    };
    for place in 0..factors.len() {
        shells.settle_at(rt, alloc, &wanted, place, gate)?;
    }
    Ok(shells)
}
