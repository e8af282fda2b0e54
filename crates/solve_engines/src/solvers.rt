//! Solves a net: a solver computes a flow, a check decides whether it proves a pit, and where it doesn't another
//! solver may follow. Gives the pit with its flow, or why there is none.

ghost use Rattle.std.specs.Prelude.{IfSome, MatchResult, IfOk};
ghost use Rattle.solve_engines.specs.Certification.{IsSolution};
ghost use Rattle.solve_engines.specs.Solving.{UnsolvedStands, MachineStands};

use crate::certification::{Solution, Uncertified, certified};
use closure_net::Net;
use net_part::PseudoflowFault;
use option_words::{Effort, Method};
use ordered_group::OrderedGroup;
use pseudoflow::Progress;
use std::alloc::{AllocError, Global};
use std::sync::Wait;
use std::thread::Threads;
use workers::{Gate, Locked, Shared, SolveFault, TurnBoard, solve};

/// Why there is no pit with a flow that proves it.
#[derive(Clone, Copy, Debug, PartialEq, Eq)]
pub enum Unsolved {
    /// The machine's run made all its steps and some block isn't done.
    Unsettled,
    /// A number of a step of the machine's run, or of the check of its flow, doesn't fit.
    TooLarge,
    /// Pseudoflow gave no flow that a check accepts, and the machine wasn't tried: pseudoflow alone was asked for, or
    /// the mine is too large for it.
    GaveUp,
    /// Memory was refused.
    NoMemory,
    /// A worker couldn't be started.
    NoThread,
    /// The board that the workers shared came back as another's.
    Stranger,
}

impl From<SolveFault> for Unsolved {
    ghost use Rattle.std.specs.Prelude.{◌≡◌};
    ghost use Rattle.solve_engines.specs.Solving.{unsolved_by};

    ghost from_gives = { λ fault unsolved. unsolved ≡ unsolved_by fault };

    fn from(fault: SolveFault) -> Unsolved {
        match fault {
            SolveFault::Unsettled => Unsolved::Unsettled,
            SolveFault::TooLarge => Unsolved::TooLarge,
            SolveFault::NoMemory => Unsolved::NoMemory,
            SolveFault::NoThread => Unsolved::NoThread,
            SolveFault::StrangerNet | SolveFault::BadWorkers => Unsolved::Stranger,
        }
    }
}

/// The pit that pseudoflow's flow proves. None where it gives no flow, or one that the check refuses.
/// A turn is one look of its search, at a label, a block or a pair; it gives up where `turns` of them don't end it.
///
/// # Errors
/// Memory was refused.
pub fn by_pseudoflow<G: OrderedGroup, P: Progress>(
    alloc: Global,
    net: &Net<G>,
    turns: u64,
    progress: &P,
) -> Result<Option<Solution<G>>, AllocError>
    ensures { IfOk result
        (λ found. IfSome found (λ s. IsSolution G.set_worth net.now s.flow s.pit s.count s.worth)) }
{
    let flow = match pseudoflow::solve(alloc, net, turns, progress) {
        Ok(flow) => flow,
        Err(PseudoflowFault::NoMemory) => return Err(AllocError),
        Err(_) => return Ok(None),
    };
    match certified(alloc, net, flow) {
        Ok(solution) => Ok(Some(solution)),
        Err(Uncertified::NoMemory) => Err(AllocError),
        Err(Uncertified::Refused(_)) => Ok(None),
    }
}

/// The pit that a run of the push-relabel machine proves.
///
/// # Errors
/// `Unsettled` where the effort's steps don't end the run, `TooLarge` where a number of a step or of the check doesn't
/// fit; `NoMemory`, `NoThread`, and `Stranger` where the board came back as another's. `GaveUp` never.
pub fn by_machine<G: OrderedGroup, R: Threads + Wait + Sync, T: Gate>(
    rt: &R,
    alloc: Global,
    net: &Net<G>,
    effort: Effort,
    gate: &T,
) -> Result<Solution<G>, Unsolved>
where
    Locked<TurnBoard<G>>: Shared,
    ensures { MatchResult result
        (λ s. IsSolution G.set_worth net.now s.flow s.pit s.count s.worth)
        (λ unsolved. MachineStands net.now effort.steps unsolved) }
{
    let flow = match solve(rt, alloc, net, effort.workers, effort.steps, gate) {
        Ok(solved) => solved.flow,
        Err(fault) => return Err(Unsolved::from(fault)),
    };
    match certified(alloc, net, flow) {
        Ok(solution) => Ok(solution),
        Err(Uncertified::NoMemory) => Err(Unsolved::NoMemory),
        // what the source reaches in a greatest flow is closed and tight, so only sums that overflow are left
        Err(Uncertified::Refused(_)) => Err(Unsolved::TooLarge),
    }
}

// What a run of the machine proves; under `Auto` what pseudoflow proves where a number of that run doesn't fit: the
// counts of blocks in the machine's amounts grow from push to push, also on small mines.
fn by_machine_first<G: OrderedGroup, R: Threads + Wait + Sync, T: Gate + Progress>(
    rt: &R,
    alloc: Global,
    net: &Net<G>,
    effort: Effort,
    gate: &T,
) -> Result<Solution<G>, Unsolved>
where
    Locked<TurnBoard<G>>: Shared,
    ensures { MatchResult result
        (λ s. IsSolution G.set_worth net.now s.flow s.pit s.count s.worth)
        (λ unsolved. MachineStands net.now effort.steps unsolved) }
{
    match by_machine(rt, alloc, net, effort, gate) {
        Err(Unsolved::TooLarge) if effort.method == Method::Auto => {
            match by_pseudoflow(alloc, net, effort.turns, gate) {
                Ok(Some(solution)) => Ok(solution),
                Ok(None) => Err(Unsolved::TooLarge),
                Err(_) => Err(Unsolved::NoMemory),
            }
        }
        answer => answer,
    }
}

/// A pit of a net with a flow that proves it, made by the effort's method.
///
/// # Errors
/// Those of `by_machine`; `GaveUp` where pseudoflow proves no pit and alone was asked for, or, under `Auto`, the mine
/// has more than 10,000 blocks.
pub fn solution_of<G: OrderedGroup, R: Threads + Wait + Sync, T: Gate + Progress>(
    rt: &R,
    alloc: Global,
    net: &Net<G>,
    effort: Effort,
    gate: &T,
) -> Result<Solution<G>, Unsolved>
where
    Locked<TurnBoard<G>>: Shared,
    ensures { MatchResult result
        (λ s. IsSolution G.set_worth net.now s.flow s.pit s.count s.worth)
        (λ unsolved. UnsolvedStands net.now effort.method effort.steps unsolved) }
{
    if !effort.method.begins_with_pseudoflow(net.len()) {
        return by_machine_first(rt, alloc, net, effort, gate);
    }
    match by_pseudoflow(alloc, net, effort.turns, gate) {
        Ok(Some(solution)) => Ok(solution),
        Ok(None) if effort.method.ends_with_pseudoflow(net.len()) => Err(Unsolved::GaveUp),
        Ok(None) => by_machine(rt, alloc, net, effort, gate),
        Err(_) => Err(Unsolved::NoMemory),
    }
}
