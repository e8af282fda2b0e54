//! Tries whole runs without a lock: which pits they find on nets whose best pits are known, how runs end that find
//! none, and that both workers run at once.

use crate::gates::{Meeting, becomes};
use closure_net::{Net, pit_of};
use ordered_group::Scaled;
use prec_file::Rests;
use std::alloc::Global;
use std::process::Abort;
use std::sync::Wait;
use std::sync::atomic::AtomicU64;
use std::sync::atomic::Ordering::SeqCst;
use std::test::Fail;
use std::thread;
use std::thread::Threads;
use std::time::{Clock, Duration};
use word_runner::solve_words;
use workers::SolveFault::{BadWorkers, TooLarge, Unsettled};
use workers::{Gate, OpenGate, SolveFault};

// A net of these pairs and these worths in units.
pub fn net_of(alloc: Global, pairs: &[(u32, u32)], units: &[i128]) -> Result<Net<Scaled>, Fail> {
    let n = units.len().min(100) as u32;
    let rests = Rests::from_pairs(alloc, n, pairs).ok().ok_or("pairs")?;
    let mut worths = Vec::new(alloc);
    for worth in units {
        worths.push(Scaled { units: *worth })?;
    }
    Ok(Net::build(rests, worths).ok().ok_or("net")?)
}

// Blocks worth 6 and 5 that rest on one of worth -10.
const DEAR_WASTE: [i128; 3] = [23_999_999_999, 19_999_999_999, -40_000_000_001];

pub fn two_on_dear_waste(alloc: Global) -> Result<Net<Scaled>, Fail> {
    net_of(alloc, &[(0, 2), (1, 2)], &DEAR_WASTE)
}

// While one worker waits for a processor the other goes round its blocks and loads the arrivals, each load a turn: no
// small limit will do.
const MANY_TURNS: u64 = 1_000_000_000;

// A run by so many workers leaves this pit.
fn leaves_the_pit<R: Abort + Threads + Wait + Sync>(
    rt: &R,
    alloc: Global,
    net: &Net<Scaled>,
    workers: u32,
    pit: &[u32],
) -> Result<(), Fail> {
    let solved = solve_words(rt, alloc, net, workers, MANY_TURNS, &OpenGate).ok();
    let flow = solved.ok_or("solved")?.flow;
    assert!(rt; flow.fits(net));
    assert!(rt; pit_of(alloc, net, &flow)?.blocks() == pit);
    Ok(())
}

// In whatever order the steps come: two on dear waste; worth what it costs; each on the other; a priced model at two
// factors; a cost beyond any word; the greatest total.
#[test]
fn runs_leave_the_best_pits(rt: HostRuntime) -> Result<(), Fail> {
    let cases: [(&[(u32, u32)], &[i128], &[u32]); 7] = [
        (&[(0, 2), (1, 2)], &DEAR_WASTE, &[0, 1, 2]),
        (&[(0, 1)], &[29_999_999_999, -30_000_000_001], &[]),
        (&[(0, 1), (1, 0)], &[8_999_999_999, -6_000_000_001], &[0, 1]),
        (
            &[(0, 1)],
            &[23_999_999_999, -20_000_000_001, 11_999_999_999],
            &[0, 1, 2],
        ),
        (
            &[(0, 1)],
            &[3_999_999_999, -20_000_000_001, 3_999_999_999],
            &[2],
        ),
        (
            &[(0, 1)],
            &[5, -1_267_650_600_228_229_401_496_703_205_376],
            &[],
        ),
        (&[], &[9_223_372_036_854_775_807], &[0]),
    ];
    for (pairs, units, pit) in cases {
        let net = net_of(rt.alloc(), pairs, units)?;
        for _run in 0..20 {
            leaves_the_pit(&rt, rt.alloc(), &net, 1, pit)?;
            leaves_the_pit(&rt, rt.alloc(), &net, 2, pit)?;
        }
    }
    Ok(())
}

// The last two are a flow of 2^63 in a ring, in the second push over its first pair; where there are two workers, the
// one that comes to it has to tell the other, which else would wait until its turns are over.
#[test]
fn faults_of_runs(rt: HostRuntime) -> Result<(), Fail> {
    let cases: [(&[(u32, u32)], &[i128], u32, u64, SolveFault); 8] = [
        (&[(0, 2), (1, 2)], &DEAR_WASTE, 0, 1_000, BadWorkers),
        (&[(0, 2), (1, 2)], &DEAR_WASTE, 3, 1_000, BadWorkers),
        (&[(0, 2), (1, 2)], &DEAR_WASTE, 1, 3, Unsettled),
        (&[], &[9_999_999_999], 1, 9, Unsettled),
        (&[], &[9_999_999_999], 2, 8, Unsettled),
        (&[], &[9_223_372_036_854_775_808], 1, 1_000, TooLarge),
        (
            &[(0, 1), (1, 0)],
            &[4_611_686_018_427_387_905, -1],
            1,
            1_000,
            TooLarge,
        ),
        (
            &[(0, 1), (1, 0)],
            &[4_611_686_018_427_387_905, -1],
            2,
            MANY_TURNS,
            TooLarge,
        ),
    ];
    for (pairs, units, workers, steps, fault) in cases {
        let net = net_of(rt.alloc(), pairs, units)?;
        let ran = solve_words(&rt, rt.alloc(), &net, workers, steps, &OpenGate);
        assert_eq!(rt; ran.err(), Some(fault));
    }
    Ok(())
}

// Counts the turns of all workers.
#[derive(Drop)]
struct Counting {
    turns: AtomicU64,
}

impl Gate for Counting {
    fn turn(&self, _worker: u32, turn: u64) {
        let before = self.turns.fetch_add(1, SeqCst);
        // a turn that isn't the one after the last is counted a hundredfold
        if turn != before {
            self.turns.fetch_add(100, SeqCst);
        }
    }
}

// Each turn passes the gate, and a load of an arrival is a turn.
#[test]
fn one_block_takes_eleven_steps_and_two_loads(rt: HostRuntime) -> Result<(), Fail> {
    let net = net_of(rt.alloc(), &[], &[9_999_999_999])?;
    let gate = Counting {
        turns: AtomicU64::new(0),
    };
    let solved = solve_words(&rt, rt.alloc(), &net, 1, 1_000, &gate).ok();
    assert_eq!(rt; solved.ok_or("solved")?.steps, 11);
    assert_eq!(rt; gate.turns.load(SeqCst), 13);
    Ok(())
}

#[test]
fn both_workers_are_at_their_turns_at_once(rt: HostRuntime) -> Result<(), Fail> {
    let net = two_on_dear_waste(rt.alloc())?;
    let gate = Meeting::of(rt, 2, 0);
    let solved = solve_words(&rt, rt.alloc(), &net, 2, MANY_TURNS, &gate);
    assert!(rt; gate.all_met());
    assert!(rt; solved.is_ok());
    Ok(())
}

// Before this turn worker 0 waits until worker 1 has come to that one, and a moment longer.
#[derive(Drop)]
struct HeldBack<R: Clock + Sync + Drop> {
    clock: R,
    turn: u64,
    other: u64,
    came: AtomicU64,
    seen: AtomicU64,
}

impl<R: Clock + Sync + Drop> Gate for HeldBack<R> {
    fn turn(&self, worker: u32, turn: u64) {
        if worker == 1 && turn == self.other {
            self.came.store(1, SeqCst);
        }
        if worker == 0 && turn == self.turn {
            if becomes(&self.clock, &self.came, 1) {
                self.seen.store(1, SeqCst);
            }
            thread::sleep(&self.clock, Duration::from_millis(100));
        }
    }
}

// The run of two workers over one block, which is the first one's, held back so. All steps are made.
fn held_back<R: Abort + Clock + Threads + Wait + Sync + Copy + Drop>(
    rt: R,
    alloc: Global,
    steps: u64,
    turn: u64,
    other: u64,
) -> Result<(), Fail> {
    let net = net_of(alloc, &[], &[9_999_999_999])?;
    let gate = HeldBack {
        clock: rt,
        turn,
        other,
        came: AtomicU64::new(0),
        seen: AtomicU64::new(0),
    };
    let solved = solve_words(&rt, alloc, &net, 2, steps, &gate).ok();
    assert_eq!(rt; gate.seen.load(SeqCst), 1);
    assert_eq!(rt; solved.ok_or("solved")?.steps, 11);
    Ok(())
}

// The block's tenth step gives its excess to the source. Until it is made the other worker goes on, and it isn't before
// the gate.
#[test]
fn a_worker_passes_the_gate_before_its_turn(rt: HostRuntime) -> Result<(), Fail> {
    held_back(rt, rt.alloc(), MANY_TURNS, 9, 100)
}

// The other worker's 13 turns are over before the first one has taken one.
#[test]
fn a_worker_goes_on_where_the_turns_of_the_other_are_over(rt: HostRuntime) -> Result<(), Fail> {
    held_back(rt, rt.alloc(), 26, 0, 12)
}
