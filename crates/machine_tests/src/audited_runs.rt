//! Tries whole runs by threads that write down each step: where their histories end, that all workers
//! write one history, and that its replay leads to the run's flow.

use crate::board_turns::{holds, leaves, same};
use crate::gates::Meeting;
use crate::small_nets::{sizes_too_large, two_on_dear_waste};
use async_step::{Event, Kind, replay};
use closure_net::{Carried, Flow, Net};
use ordered_group::{OrderedGroup, Scaled, Worth, WorthSize};
use std::alloc::Global;
use std::process::Abort;
use std::sync::Wait;
use std::thread::Threads;
use std::time::Clock;
use workers::{
    Audit, AuditEnd, AuditFault, Audited, End, Locked, OpenGate, Shared, SolveFault, Turn,
    solve_audited,
};

// How block 0 begins, whose first port is that of the pair, and whose second is the source's.
const FIRST: [Event; 3] = [
    Event {
        block: 0,
        kind: Kind::ReadExcess,
    },
    Event {
        block: 0,
        kind: Kind::ReadLabel,
    },
    Event {
        block: 0,
        kind: Kind::ReadCapacity,
    },
];

const UNSETTLED: AuditEnd = AuditEnd::NoFlow(SolveFault::Unsettled);

// The fault of a run of one worker with this limit and this room.
fn fault_of<R: Abort + Threads + Wait + Sync>(
    rt: &R,
    alloc: Global,
    steps: u64,
    room: u32,
) -> AuditFault {
    let net: Net<WorthSize> = two_on_dear_waste(rt, alloc);
    let run = solve_audited(rt, alloc, &net, 1, steps, room, &OpenGate);
    fault_in(rt, run)
}

// The fault of a run that gave no flow.
fn fault_in(rt: &impl Abort, run: Result<Audit<WorthSize>, AuditFault>) -> AuditFault {
    match run {
        Ok(_) => panic!(rt; "a flow"),
        Err(fault) => fault,
    }
}

// A run that ended for this reason, after these steps.
fn ended(rt: &impl Abort, run: &AuditFault, end: AuditEnd, history: &[Event]) {
    assert_eq!(rt; run.fault, end);
    assert!(rt; run.history.as_slice() == history);
}

#[test]
fn a_history_ends_at_its_room_and_at_the_limit(rt: HostRuntime) {
    let ends = [
        (1_000_000_000, 3, AuditEnd::HistoryFull),
        (3, 100_000, UNSETTLED),
        (3, 3, UNSETTLED),
    ];
    for (steps, room, end) in ends {
        let run = fault_of(&rt, rt.alloc(), steps, room);
        ended(&rt, &run, end, &FIRST);
    }
}

fn has_steps(rt: &impl Abort, run: AuditFault, steps: usize) {
    same(rt, run.fault, AuditEnd::NoFlow(SolveFault::TooLarge));
    same(rt, run.history.len(), steps);
}

#[test]
fn a_stuck_run_has_the_steps_before(rt: HostRuntime) {
    let net = sizes_too_large(&rt, rt.alloc());
    let run = solve_audited(&rt, rt.alloc(), &net, 1, 10_000, 100, &OpenGate);
    has_steps(&rt, fault_in(&rt, run), 24);
}

// The flow to which a history leads.
fn replayed(
    rt: &impl Abort,
    alloc: Global,
    net: &Net<WorthSize>,
    history: &[Event],
) -> Flow<WorthSize> {
    let state = replay(alloc, net, history).expect(rt, "steps");
    state.into_flow(net).ok().expect(rt, "a quiet run")
}

// Whether the same goes over each arc of a net of three blocks.
fn are_alike(some: &Carried<WorthSize>, others: &Carried<WorthSize>) -> bool {
    if some.len() != 3 || others.len() != 3 {
        return false;
    }
    for b in 0..3 {
        if some.at(b) != others.at(b) {
            return false;
        }
    }
    true
}

// The flow leaves all three blocks, and the history leads to it.
fn replays(
    rt: &impl Abort,
    alloc: Global,
    net: &Net<WorthSize>,
    flow: &Flow<WorthSize>,
    history: &[Event],
) {
    leaves(rt, alloc, net, flow, &[0, 1, 2]);
    let again = replayed(rt, alloc, net, history);
    holds(rt, are_alike(again.source(), flow.source()));
    holds(rt, are_alike(again.sink(), flow.sink()));
}

// The run of two workers, who see each other before this turn.
fn run_that_meets<R: Abort + Clock + Threads + Wait + Sync + Copy + Drop>(
    rt: R,
    alloc: Global,
    net: &Net<WorthSize>,
    turn: u64,
) -> Audit<WorthSize> {
    let gate = Meeting::of(rt, 2, turn);
    let run = solve_audited(&rt, alloc, net, 2, 10_000_000, 100_000, &gate);
    holds(&rt, gate.all_met());
    match run {
        Ok(run) => run,
        Err(_) => panic!(rt; "no flow"),
    }
}

// Two workers see each other before the same turn, and the history of what they did together replays to
// the flow that is answered.
#[test]
fn both_workers_write_one_history(rt: HostRuntime) {
    let net: Net<WorthSize> = two_on_dear_waste(&rt, rt.alloc());
    for turn in 0..2 {
        let run = run_that_meets(rt, rt.alloc(), &net, turn);
        replays(&rt, rt.alloc(), &net, &run.flow, &run.history);
    }
}

// A turn under the lock makes one step, and writes it down.
fn writes_a_step<G: OrderedGroup, R: Abort + Wait>(rt: &R, alloc: Global)
where
    Locked<Audited<G>>: Shared,
{
    let net: Net<G> = two_on_dear_waste(rt, alloc);
    let shared = Locked::new(Audited::open(alloc, &net, 10).expect(rt, "memory"));
    makes_one_step(rt, &shared);
    let history = shared.into_inner().into_history();
    is_first_step(rt, &history);
}

// A turn that makes a step, and one at its limit.
fn makes_one_step<S: Shared, R: Abort + Wait>(rt: &R, shared: &S) {
    let begun = Turn::Stepped {
        block: 0,
        more: true,
    };
    same(rt, shared.act(rt, None, 0, 10), begun);
    same(rt, shared.act(rt, Some(0), 0, 1), Turn::Ended(End::Limit));
}

fn is_first_step(rt: &impl Abort, history: &[Event]) {
    same(rt, history.len(), 1);
    holds(rt, history.get(0) == Some(&FIRST[0]));
}

#[test]
fn turns_under_the_lock_are_written_down(rt: HostRuntime) {
    writes_a_step::<Worth, _>(&rt, rt.alloc());
    writes_a_step::<WorthSize, _>(&rt, rt.alloc());
    writes_a_step::<Scaled, _>(&rt, rt.alloc());
}
