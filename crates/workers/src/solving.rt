//! A whole run of the machine by workers under one lock, from a net to a maximum flow or why there is none.

ghost use Rattle.std.specs.Prelude.{◌≡◌, ◌↔◌, ◌≤◌, IsTrue, MatchResult, IsErrOf};
ghost use Rattle.boards.specs.Boards.{shown_state};
ghost use Rattle.workers.specs.Runs.{most_steps, Settles};
ghost use Rattle.workers.specs.Solving.{AreBadWorkers, IsBoardLeft, IsLoss, RunFaultStands, SolveFaultStands};

use crate::gate::Gate;
use crate::locked::{Locked, Shared};
use crate::worker::serve;
use async_step::MOST_STEPS;
use boards::{End, TurnBoard, finish};
use closure_net::{Flow, Net};
use ordered_group::OrderedGroup;
use std::alloc::Global;
use std::sync::Wait;
use std::thread;
use std::thread::Threads;

/// The most workers of one run.
pub const MOST_WORKERS: u32 = 64;

// Contracts cite the limit by its name, so a wrong number would change code and contract alike: this is the number.
fn number_of_workers()
    ensures { MOST_WORKERS ≡ 64 }
{}

/// A run that has settled.
#[derive(Drop)]
pub struct Solved<G: OrderedGroup> {
    /// The flow that it left: a greatest one.
    pub flow: Flow<G>,
    /// How many steps it made.
    pub steps: u64,
}

/// Why a run gives no flow.
#[derive(Clone, Copy, Debug, PartialEq, Eq)]
pub enum SolveFault {
    /// There are no workers, or more than 64.
    BadWorkers,
    /// The run made all its steps, and some block has excess or an operation.
    Unsettled,
    /// A number of the state after the next step would overflow its type.
    TooLarge,
    /// The board that came back from the workers isn't one of this run: its net is another, or it
    /// made more steps than it may. No run is known to answer this; see `solve`.
    StrangerNet,
    /// Memory was refused.
    NoMemory,
    /// A worker couldn't be started.
    NoThread,
}

/// Starts the workers and waits until all that were started have ended. False where one couldn't be
/// started.
pub fn serve_all<R: Threads + Wait + Sync, S: Shared, T: Gate>(
    rt: &R,
    shared: &S,
    gate: &T,
    workers: u32,
    blocks: u32,
    steps: u64,
) -> bool {
    thread::scope(thread::scope_env(), rt, |scope| {
        for worker in 0..workers {
            if scope
                .spawn(move || serve(rt, shared, gate, worker, blocks, steps))
                .is_err()
            {
                return false;
            }
        }
        true
    })
}

/// Runs the machine with this many workers, each a thread of its own, until no block has excess or an
/// operation, and returns the flow. It is a maximum flow of the net, in which what the source reaches is
/// closed, tight and a greatest closed set.
///
/// Each worker passes the gate before each of its turns. What is left of the run when all have ended
/// is made by the calling thread, so a run without an end made all its steps. A limit above 2^40 steps
/// counts as 2^40. With several workers the order of the steps is that in which they take the lock:
/// two runs may leave two greatest flows.
///
/// The method is push-relabel (Goldberg and Tarjan, A new approach to the maximum-flow problem,
/// Journal of the ACM 35, 1988), which makes O(V^2 E) pushes over V nodes and E arcs, in the atomic
/// steps of Hong (A lock-free multi-threaded algorithm for the maximum flow problem, 2008), who gives
/// O(V^2 E) pushes and relabels. No bound is claimed here: a run that isn't settled by the limit on its
/// steps is `Unsettled`.
///
/// # Errors
/// `BadWorkers` where there are fewer than 1 or more than 64. `NoMemory` where memory for the board was
/// refused. `NoThread` where a worker couldn't be started, whatever the others did; those have ended.
/// `StrangerNet` where the board that the workers shared comes back as another: what a thread does under
/// a lock is beyond a contract, so the board is compared with the net that was handed in. Then
/// `TooLarge` where a number of the state after the next step would overflow its type, and `Unsettled`
/// where all steps were made.
pub fn solve<G: OrderedGroup, R: Threads + Wait + Sync, T: Gate>(
    rt: &R,
    alloc: Global,
    net: &Net<G>,
    workers: u32,
    steps: u64,
    gate: &T,
) -> Result<Solved<G>, SolveFault>
where
    Locked<TurnBoard<G>>: Shared,
    ensures answer { MatchResult result
        (λ solved. Settles net.now steps solved.flow solved.steps)
        (λ fault. SolveFaultStands net.now workers steps fault) }
    ensures workers { IsErrOf result SolveFault.BadWorkers ↔ AreBadWorkers workers }
{
    if workers < 1 || workers > MOST_WORKERS {
        return Err(SolveFault::BadWorkers);
    }
    let board = board_after(rt, alloc, net, workers, steps, gate)?;
    flow_of(board, steps)
}

// The most steps of a run with this limit.
pub(crate) fn most_steps(limit: u64) -> u64
    ensures { result ≡ most_steps limit }
{
    limit.min(MOST_STEPS)
}

// Whether a board is over the net, and no more steps were made on it than the limit allows.
fn is_left<G: OrderedGroup>(board: &TurnBoard<G>, net: &Net<G>, limit: u64) -> bool
    ensures { IsTrue result → IsBoardLeft net.now limit board.now }
{
    board.is_over(net) && board.count() <= most_steps(limit)
}

// The board of a net as so many workers leave it.
fn board_after<G: OrderedGroup, R: Threads + Wait + Sync, T: Gate>(
    rt: &R,
    alloc: Global,
    net: &Net<G>,
    workers: u32,
    limit: u64,
    gate: &T,
) -> Result<TurnBoard<G>, SolveFault>
where
    Locked<TurnBoard<G>>: Shared,
    ensures { MatchResult result
        (λ board. IsBoardLeft net.now limit board)
        (λ fault. IsLoss fault) }
{
    let board = TurnBoard::open(alloc, net).map_err(|_| SolveFault::NoMemory)?;
    let shared = Locked::new(board);
    let steps = most_steps(limit);
    if !serve_all(rt, &shared, gate, workers, net.len(), steps) {
        return Err(SolveFault::NoThread);
    }
    let board = shared.into_inner();
    if is_left(&board, net, limit) {
        Ok(board)
    } else {
        Err(SolveFault::StrangerNet)
    }
}

// The flow that a run leaves once the turns that are left are made.
fn flow_of<G: OrderedGroup>(board: TurnBoard<G>, limit: u64) -> Result<Solved<G>, SolveFault>
    requires { (shown_state board).steps ≤ most_steps limit }
    ensures { MatchResult result
        (λ solved. Settles board.net limit solved.flow solved.steps)
        (λ fault. RunFaultStands board.net limit fault) }
{
    let mut board = board;
    match finish(&mut board, most_steps(limit)) {
        End::Quiet => {}
        End::Stuck => return Err(SolveFault::TooLarge),
        End::Limit => return Err(SolveFault::Unsettled),
        End::Full => unreachable!("a board has room for all its steps"),
    }
    let board = board.into_board();
    let steps = board.count();
    match board.settle() {
        Ok((_, flow)) => Ok(Solved { flow, steps }),
        Err(_) => unreachable!("a run that ended quiet is quiet"),
    }
}
