//! Solves a net by one or two workers without a lock, has their flow checked over the net itself, and gives the pit
//! that it proves, or why there is none.

ghost use Rattle.std.specs.Prelude.{MatchResult};
ghost use Rattle.ordered_group.specs.Block.{scaled_worth};
ghost use Rattle.solve_engines.specs.Certification.{IsSolution};
ghost use Rattle.lock_free_engine.specs.LockFreeRuns.{LockFreeStands};

use crate::laws;
use crate::lock_free_effort::LockFreeEffort;
use closure_net::Net;
use ordered_group::Scaled;
use solve_engines::certification::{Solution, Uncertified, certified};
use solve_engines::solvers::Unsolved;
use std::alloc::Global;
use std::sync::Wait;
use std::thread::Threads;
use word_runner::solve_words;
use workers::Gate;

/// The pit that a run of the push-relabel machine without a lock proves: its flow has passed the check of this net.
///
/// # Errors
/// - `Unsettled`: the turns were used up before all that the source gave had arrived.
/// - `TooLarge`: the positive worths sum to 2^63 units or more; or a step brought the flow of a pair to 2^63, or would
///   have brought a label there; or a sum of the check overflows.
/// - `NoMemory`: memory is refused. `NoThread`: a worker can't be started.
///
/// Never `GaveUp` or `Stranger`.
pub fn by_lock_free_run<R: Threads + Wait + Sync, T: Gate>(
    rt: &R,
    alloc: Global,
    net: &Net<Scaled>,
    effort: LockFreeEffort,
    gate: &T,
) -> Result<Solution<Scaled>, Unsolved>
    ensures { MatchResult result
        (λ s. IsSolution scaled_worth net.now s.flow s.pit s.count s.worth)
        (λ unsolved. LockFreeStands net.now effort.workers effort.steps unsolved) }
{
    // proof: what the source reaches in the flow of a run is closed and tight, and the check of such a pit fails for
    // its sums alone
    laws::runs_are_tight();
    let _worths = net.worths();
    let flow = match solve_words(rt, alloc, net, effort.workers, effort.steps, gate) {
        Ok(solved) => solved.flow,
        Err(fault) => return Err(Unsolved::from(fault)),
    };
    match certified(alloc, net, flow) {
        Ok(solution) => Ok(solution),
        Err(Uncertified::NoMemory) => Err(Unsolved::NoMemory),
        Err(Uncertified::Refused(_)) => Err(Unsolved::TooLarge),
    }
}
