//! Tries runs by up to 64 workers, with gates that make workers wait for each other and one that counts: each step
//! passes the gate.

use crate::board_turns::holds;
use crate::small_nets::{net_of, two_on_dear_waste, two_on_waste};
use async_step::Event;
use closure_net::Net;
use ordered_group::{OrderedGroup, Worth, WorthSize};
use std::alloc::Global;
use std::process::Abort;
use std::sync::Wait;
use std::sync::atomic::Ordering::SeqCst;
use std::sync::atomic::{AtomicBool, AtomicU64};
use std::thread;
use std::thread::Threads;
use std::time::{Clock, Duration};
use workers::{Gate, Locked, Shared, TurnBoard, solve, solve_audited};

// Waits until a number is another one, ten seconds or so at most. Answers whether it was.
pub fn becomes<R: Clock>(clock: &R, number: &AtomicU64, goal: u64) -> bool {
    for _look in 0..10_000 {
        if number.load(SeqCst) == goal {
            return true;
        }
        thread::sleep(clock, Duration::from_millis(1));
    }
    false
}

// Before one of their turns so many workers wait for each other. Each of 64 workers has a binary digit
// of its own.
#[derive(Drop)]
pub struct Meeting<R: Clock + Sync + Drop> {
    clock: R,
    turn: u64,
    // the digits of all of them
    all: u64,
    // who came, and who of them saw all come
    came: AtomicU64,
    met: AtomicU64,
}

impl<R: Clock + Sync + Drop> Meeting<R> {
    pub fn of(clock: R, workers: u32, turn: u64) -> Meeting<R> {
        Meeting {
            clock,
            turn,
            all: u64::MAX.wrapping_shr(64u32.wrapping_sub(workers)),
            came: AtomicU64::new(0),
            met: AtomicU64::new(0),
        }
    }

    // Whether each number is that of one worker, and all of them met.
    pub fn all_met(&self) -> bool {
        self.met.load(SeqCst) == self.all
    }
}

impl<R: Clock + Sync + Drop> Gate for Meeting<R> {
    fn turn(&self, worker: u32, turn: u64) {
        if turn == self.turn {
            let own = 1u64.wrapping_shl(worker);
            self.came.fetch_add(own, SeqCst);
            if becomes(&self.clock, &self.came, self.all) {
                self.met.fetch_add(own, SeqCst);
            }
        }
    }
}

// Two workers see each other before this turn.
fn meet_at<R: Abort + Clock + Threads + Wait + Sync + Copy + Drop>(
    rt: R,
    alloc: Global,
    net: &Net<WorthSize>,
    turn: u64,
) {
    let gate = Meeting::of(rt, 2, turn);
    let solved = solve(&rt, alloc, net, 2, 10_000_000, &gate);
    holds(&rt, gate.all_met());
    holds(&rt, solved.is_ok());
}

#[test]
fn both_workers_are_at_their_turns_at_once(rt: HostRuntime) {
    let net: Net<WorthSize> = two_on_dear_waste(&rt, rt.alloc());
    for turn in 0..2 {
        meet_at(rt, rt.alloc(), &net, turn);
    }
}

// All 64 workers of a run that are asked for are at their first turn at once.
#[test]
fn sixty_four_workers_take_the_turns_of_a_run(rt: HostRuntime) {
    let alloc = rt.alloc();
    let net: Net<WorthSize> = two_on_dear_waste(&rt, alloc);
    let gate = Meeting::of(rt, 64, 0);
    let solved = solve(&rt, alloc, &net, 64, 10_000_000, &gate);
    holds(&rt, gate.all_met() && solved.is_ok());
}

// The last of 64 workers takes its first turn before all others, then the one before it, and so on. None takes a second
// turn before all have taken the first.
#[derive(Drop)]
struct LastFirst<R: Clock + Sync + Drop> {
    clock: R,
    // how many have taken their first turn
    begun: AtomicU64,
}

impl<R: Clock + Sync + Drop> Gate for LastFirst<R> {
    fn turn(&self, worker: u32, turn: u64) {
        if turn == 1 {
            self.begun.fetch_add(1, SeqCst);
        }
        if turn < 2 {
            let goal = if turn == 0 {
                63u64.wrapping_sub(worker as u64)
            } else {
                64
            };
            becomes(&self.clock, &self.begun, goal);
        }
    }
}

// The first steps are those of the last block, of the one before it, and so on.
fn begins_with_the_last(rt: &impl Abort, history: &[Event]) {
    for k in 0..64u32 {
        let block = history.get(k as usize).map(|event| event.block);
        assert_eq!(rt; block, Some(63u32.wrapping_sub(k)));
    }
}

// Each of 64 workers looks at first from the block of its own number, and takes it where it has excess, as all have
// here.
#[test]
fn sixty_four_workers_are_started(rt: HostRuntime) {
    let alloc = rt.alloc();
    let net: Net<WorthSize> = net_of(&rt, alloc, 64, &[], &[1_000_000_000; 64]);
    let gate = LastFirst {
        clock: rt,
        begun: AtomicU64::new(0),
    };
    let audit = solve_audited(&rt, alloc, &net, 64, 10_000_000, 100_000, &gate).ok();
    holds(&rt, gate.begun.load(SeqCst) == 64);
    begins_with_the_last(&rt, &audit.expect(&rt, "flow").history);
}

// Before its first turn worker 0 waits until worker 1 has taken twenty.
#[derive(Drop)]
struct HeldBack<R: Clock + Sync + Drop> {
    clock: R,
    far: AtomicU64,
    seen: AtomicBool,
}

impl<R: Clock + Sync + Drop> Gate for HeldBack<R> {
    fn turn(&self, worker: u32, turn: u64) {
        match (worker, turn) {
            (0, 0) => self.seen.store(becomes(&self.clock, &self.far, 20), SeqCst),
            (1, 20) => self.far.store(20, SeqCst),
            _ => {}
        }
    }
}

#[test]
fn a_worker_goes_on_while_another_waits(rt: HostRuntime) {
    let net: Net<WorthSize> = two_on_dear_waste(&rt, rt.alloc());
    let gate = HeldBack {
        clock: rt,
        far: AtomicU64::new(0),
        seen: AtomicBool::new(false),
    };
    let solved = solve(&rt, rt.alloc(), &net, 2, 10_000_000, &gate);
    holds(&rt, gate.seen.load(SeqCst));
    holds(&rt, solved.is_ok());
}

// Counts the turns of all workers.
#[derive(Drop)]
struct Counting {
    turns: AtomicU64,
}

impl Gate for Counting {
    fn turn(&self, _worker: u32, _turn: u64) {
        self.turns.fetch_add(1, SeqCst);
    }
}

// Each step is a turn of a worker, which passed the gate. One worker finds a step in each turn, until
// it finds that the run is quiet.
fn counts_turns_of<G: OrderedGroup, R: Abort + Threads + Wait + Sync>(
    rt: &R,
    alloc: Global,
    net: &Net<G>,
    workers: u32,
    limit: u64,
) -> u64
where
    Locked<TurnBoard<G>>: Shared,
{
    let gate = Counting {
        turns: AtomicU64::new(0),
    };
    let solved = solve(rt, alloc, net, workers, limit, &gate).expect(rt, "solved");
    let steps = solved.steps;
    let turns = gate.turns.load(SeqCst);
    holds(rt, 0 < steps && steps <= turns);
    holds(rt, workers > 1 || turns == limit.min(steps.wrapping_add(1)));
    steps
}

fn counts_turns<G: OrderedGroup, R: Abort + Threads + Wait + Sync>(
    rt: &R,
    alloc: Global,
    net: Net<G>,
)
where
    Locked<TurnBoard<G>>: Shared,
{
    let steps = counts_turns_of(rt, alloc, &net, 1, 100_000);
    // all of the limit is the workers', so that the calling thread makes none of these
    counts_turns_of(rt, alloc, &net, 1, steps);
    counts_turns_of(rt, alloc, &net, 2, 100_000);
}

#[test]
fn each_step_passes_the_gate(rt: HostRuntime) {
    let alloc = rt.alloc();
    counts_turns::<WorthSize, _>(&rt, alloc, two_on_dear_waste(&rt, alloc));
    counts_turns::<Worth, _>(&rt, alloc, two_on_waste(&rt, alloc));
}
