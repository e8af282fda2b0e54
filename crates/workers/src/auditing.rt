//! Runs push-relabel by several threads and writes down each step: gives a maximum flow and the history that leads to
//! it, or why there is no flow.

ghost use Rattle.std.specs.Prelude.{◌≡◌, ℕ, ◌≤◌, [], MatchResult};
ghost use Rattle.boards.specs.Boards.{shown_state};
ghost use Rattle.boards.specs.Audits.{IsAudited};
ghost use Rattle.workers.specs.Runs.{most_steps};
ghost use Rattle.workers.specs.Solving.{AreBadWorkers};
ghost use Rattle.workers.specs.Auditing.{most_room, IsAudit, IsAuditLeft, IsAuditLoss, lost_by, AuditRunFaultStands, AuditFaultStands};

use crate::gate::Gate;
use crate::locked::{Locked, Shared};
use crate::solving::{MOST_WORKERS, SolveFault, most_steps, serve_all};
use async_step::Event;
use boards::{Audited, End};
use closure_net::{Flow, Net};
use machine_law::MOST_EVENTS;
use ordered_group::OrderedGroup;
use std::alloc::Global;
use std::sync::Wait;
use std::thread::Threads;

/// A run that has settled.
#[derive(Drop)]
pub struct Audit<G: OrderedGroup> {
    /// The flow that it left: a greatest one.
    pub flow: Flow<G>,
    /// Its steps, in their order.
    pub history: Vec<Event>,
}

/// Why an audited run gives no flow.
#[derive(Clone, Copy, Debug, PartialEq, Eq)]
pub enum AuditEnd {
    /// For a reason that a run of `solve` may have too.
    NoFlow(SolveFault),
    /// There is no room to write down another step, below the limit, and some block has excess or an
    /// operation.
    HistoryFull,
}

/// An audited run without a flow.
#[derive(Drop)]
pub struct AuditFault {
    /// Why there is none.
    pub fault: AuditEnd,
    /// The steps that it made, in their order.
    pub history: Vec<Event>,
}

impl AuditFault {
    // A run of which no step is known.
    fn without_steps(alloc: Global, fault: SolveFault) -> AuditFault
        ensures fault { result.fault ≡ AuditEnd.NoFlow fault }
        ensures history { result.history.items ≡ [] }
    {
        AuditFault {
            fault: AuditEnd::NoFlow(fault),
            history: Vec::new(alloc),
        }
    }
}

/// Makes a run as `solve` does, and writes down each step in a history with room for this many events,
/// 8 bytes each. A replay of the history from the opening state of the net leads to the flow that is
/// returned, a maximum flow of the net. Any program that knows the machine's steps can make the replay.
///
/// The history is the run in the order in which the workers made its steps, one at a time under the
/// lock; no ReadExcess of it sees zero. A room above 2^24 events counts as 2^24.
///
/// # Errors
/// As of `solve`, each with its history, and `HistoryFull`:
///
/// - `Unsettled` where the history has exactly as many events as the limit allows, `HistoryFull` where it
///   has as many as there is room for, below the limit; some block has excess or an operation after it.
/// - `TooLarge` where a number of the state after the next step would overflow its type.
/// - `NoThread` with the steps that were made, of which no clause says that they are all; `BadWorkers`, `NoMemory` and
///   `StrangerNet` with none.
pub fn solve_audited<G: OrderedGroup, R: Threads + Wait + Sync, T: Gate>(
    rt: &R,
    alloc: Global,
    net: &Net<G>,
    workers: u32,
    steps: u64,
    room: u32,
    gate: &T,
) -> Result<Audit<G>, AuditFault>
where
    Locked<Audited<G>>: Shared,
    ensures answer { MatchResult result
        (λ audit. IsAudit net.now steps room audit.flow audit.history.items)
        (λ fault. AuditFaultStands net.now workers steps room fault.fault fault.history.items) }
    ensures workers { MatchResult result
        (λ audit. ¬ (AreBadWorkers workers))
        (λ fault. AreBadWorkers workers → fault.fault ≡ AuditEnd.NoFlow SolveFault.BadWorkers) }
{
    if workers < 1 || workers > MOST_WORKERS {
        return Err(AuditFault::without_steps(alloc, SolveFault::BadWorkers));
    }
    let board = audited_after(rt, alloc, net, workers, steps, room, gate)?;
    audit_of(board, steps)
}

// The most events of a history with this room.
fn most_room(room: u32) -> u32
    ensures is { result ≡ most_room room }
{
    room.min(MOST_EVENTS)
}

// The audited board of a net as so many workers leave it.
fn audited_after<G: OrderedGroup, R: Threads + Wait + Sync, T: Gate>(
    rt: &R,
    alloc: Global,
    net: &Net<G>,
    workers: u32,
    limit: u64,
    room: u32,
    gate: &T,
) -> Result<Audited<G>, AuditFault>
where
    Locked<Audited<G>>: Shared,
    ensures { MatchResult result
        (λ board. IsAuditLeft net.now limit room board)
        (λ fault. IsAuditLoss net.now limit room fault.fault fault.history.items) }
{
    let most = most_room(room);
    let Ok(board) = Audited::open(alloc, net, most) else {
        return Err(AuditFault::without_steps(alloc, SolveFault::NoMemory));
    };
    let shared = Locked::new(board);
    let steps = most_steps(limit);
    let all = serve_all(rt, &shared, gate, workers, net.len(), steps);
    let board = shared.into_inner();
    // proof: the type of a board keeps its history
    let _blocks = board.len();
    if board.is_over(net) && board.count() <= steps && board.room() == most {
        if all {
            Ok(board)
        } else {
            Err(ended(board, AuditEnd::NoFlow(SolveFault::NoThread)))
        }
    } else {
        Err(AuditFault::without_steps(alloc, lost_by(all)))
    }
}

// Why the board of a run is lost that comes back as another's.
fn lost_by(all_started: bool) -> SolveFault
    ensures { result ≡ lost_by all_started }
{
    if all_started {
        SolveFault::StrangerNet
    } else {
        SolveFault::NoThread
    }
}

// A run that ended without a flow.
fn ended<G: OrderedGroup>(board: Audited<G>, fault: AuditEnd) -> AuditFault
    ensures fault { result.fault ≡ fault }
    ensures history { result.history.items ≡ board.history }
{
    AuditFault {
        fault,
        history: board.into_history(),
    }
}

// The flow that a run leaves once the turns that are left are made, and its history.
fn audit_of<G: OrderedGroup>(board: Audited<G>, limit: u64) -> Result<Audit<G>, AuditFault>
    requires audited { IsAudited board }
    requires within { (shown_state board.board).steps ≤ most_steps limit }
    ensures { (room : ℕ) → board.room ≡ most_room room → MatchResult result
        (λ audit. IsAudit board.board.net limit room audit.flow audit.history.items)
        (λ fault. AuditRunFaultStands board.board.net limit room fault.fault fault.history.items) }
{
    let mut board = board;
    match board.finish(most_steps(limit)) {
        End::Quiet => {}
        End::Stuck => return Err(ended(board, AuditEnd::NoFlow(SolveFault::TooLarge))),
        End::Limit => return Err(ended(board, AuditEnd::NoFlow(SolveFault::Unsettled))),
        End::Full => return Err(ended(board, AuditEnd::HistoryFull)),
    }
    match board.settle() {
        Ok((_, flow, history)) => Ok(Audit { flow, history }),
        Err(_) => unreachable!("a run that ended quiet is quiet"),
    }
}
