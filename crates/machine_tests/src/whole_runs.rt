//! Tries whole runs by 1 to 64 workers under one lock: which pits they find on nets whose best pits
//! are known, and how runs end that find none.

use crate::board_turns::{leaves, same};
use crate::small_nets::{
    each_on_the_other, sizes_too_large, two_on_dear_waste, two_on_waste, worth_what_it_costs,
};
use closure_net::Net;
use ordered_group::{OrderedGroup, Worth, WorthSize};
use std::alloc::Global;
use std::process::Abort;
use std::sync::Wait;
use std::thread::Threads;
use workers::{Locked, OpenGate, Shared, SolveFault, TurnBoard, solve};

// A run of so many workers leaves this pit, in whatever order the steps came.
fn run_leaves<G: OrderedGroup, R: Abort + Threads + Wait + Sync>(
    rt: &R,
    alloc: Global,
    net: &Net<G>,
    workers: u32,
    pit: &[u32],
)
where
    Locked<TurnBoard<G>>: Shared,
{
    let solved = solve(rt, alloc, net, workers, 100_000, &OpenGate).expect(rt, "solved");
    leaves(rt, alloc, net, &solved.flow, pit);
}

// Runs of few and of many workers do.
fn leaves_the_pit<G: OrderedGroup, R: Abort + Threads + Wait + Sync>(
    rt: &R,
    alloc: Global,
    net: &Net<G>,
    pit: &[u32],
)
where
    Locked<TurnBoard<G>>: Shared,
{
    for workers in [1, 2, 4, 64] {
        for _run in 0..20 {
            run_leaves(rt, alloc, net, workers, pit);
        }
    }
}

#[test]
fn runs_leave_the_best_pits(rt: HostRuntime) {
    let net: Net<WorthSize> = two_on_dear_waste(&rt, rt.alloc());
    leaves_the_pit(&rt, rt.alloc(), &net, &[0, 1, 2]);
    let net: Net<WorthSize> = worth_what_it_costs(&rt, rt.alloc());
    leaves_the_pit(&rt, rt.alloc(), &net, &[]);
    let net: Net<WorthSize> = each_on_the_other(&rt, rt.alloc());
    leaves_the_pit(&rt, rt.alloc(), &net, &[0, 1]);
}

#[test]
fn two_on_waste_are_worth_it(rt: HostRuntime) {
    let net: Net<Worth> = two_on_waste(&rt, rt.alloc());
    leaves_the_pit(&rt, rt.alloc(), &net, &[0, 1, 2]);
}

// Why a run of a net over which there are runs gives no flow.
fn fault_of<R: Abort + Threads + Wait + Sync>(
    rt: &R,
    alloc: Global,
    workers: u32,
    steps: u64,
) -> Option<SolveFault> {
    let net: Net<WorthSize> = two_on_dear_waste(rt, alloc);
    solve(rt, alloc, &net, workers, steps, &OpenGate).err()
}

// There are 1 to 64 workers; a limit is below the run, and one is above all that there are.
#[test]
fn faults_of_runs(rt: HostRuntime) {
    let faults = [
        (0, 10_000, Some(SolveFault::BadWorkers)),
        (65, 10_000, Some(SolveFault::BadWorkers)),
        (64, 10_000, None),
        (1, 10_000, None),
        (1, 3, Some(SolveFault::Unsettled)),
        (2, 3, Some(SolveFault::Unsettled)),
        (2, u64::MAX, None),
    ];
    for (workers, steps, fault) in faults {
        same(&rt, fault_of(&rt, rt.alloc(), workers, steps), fault);
    }
}

#[test]
fn a_sum_too_large_is_no_limit(rt: HostRuntime) {
    let net = sizes_too_large(&rt, rt.alloc());
    let fault = solve(&rt, rt.alloc(), &net, 1, 10_000, &OpenGate).err();
    same(&rt, fault, Some(SolveFault::TooLarge));
}
