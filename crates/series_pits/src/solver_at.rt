//! Solves a mine at one factor without a lock where one or two workers are asked for and numbers fit a word, and else
//! by the method of the effort.

ghost use Rattle.std.specs.Prelude.{MatchResult};
ghost use Rattle.ordered_group.specs.Block.{scaled_worth};
ghost use Rattle.solve_engines.specs.Certification.{IsSolution};
ghost use Rattle.series_pits.specs.SettledSeries.{NotSolvedStands};

use closure_net::Net;
use lock_free_engine::{LockFreeEffort, by_lock_free_run};
use option_words::Effort;
use ordered_group::Scaled;
use pseudoflow::Progress;
use solve_engines::certification::Solution;
use solve_engines::solvers::{Unsolved, solution_of};
use std::alloc::Global;
use std::sync::Wait;
use std::thread::Threads;
use workers::Gate;

/// A pit of a net with a flow that proves it. One worker or two run without a lock; where a number of that run doesn't
/// fit a word, and where there are more workers, the effort's method finds it under one, with all the steps.
///
/// # Errors
/// `Unsettled` where the effort's steps don't end a run, `TooLarge` where a number of the run under the lock doesn't
/// fit; `NoMemory`, `NoThread`, `Stranger`, and `GaveUp`, as `solution_of` answers them.
pub fn solution_at<R: Threads + Wait + Sync, T: Gate + Progress>(
    rt: &R,
    alloc: Global,
    net: &Net<Scaled>,
    effort: Effort,
    gate: &T,
) -> Result<Solution<Scaled>, Unsolved>
    ensures { MatchResult result
        (λ s. IsSolution scaled_worth net.now s.flow s.pit s.count s.worth)
        (λ why. NotSolvedStands net.now effort why) }
{
    let Some(without_lock) = LockFreeEffort::new(effort.workers, effort.steps) else {
        return solution_of(rt, alloc, net, effort, gate);
    };
    match by_lock_free_run(rt, alloc, net, without_lock, gate) {
        Err(Unsolved::TooLarge) => solution_of(rt, alloc, net, effort, gate),
        answer => answer,
    }
}
