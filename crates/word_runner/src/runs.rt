//! Runs push-relabel by one or two workers without a lock: gives a maximum flow of the net and the number of steps,
//! or why there is no flow.

ghost use Rattle.std.specs.Prelude.{◌≡◌, ◌+◌, ◌<◌, ◌^◌, ◌++◌, false, MatchResult};
ghost use Rattle.word_runner.specs.Seats.{IsServed};
ghost use Rattle.word_runner.specs.Ends.{solve_fault, settle_fault, IsQuietEnd, WordRunFaultStands, IsSolvedBy, WordSolveFaultStands};

use crate::net_words::Words;
use crate::opening::{split, words_of};
use crate::serving::{Served, serve};
use crate::settle_fault::SettleFault;
use crate::settling::{settle_one, settle_two};
use crate::two_workers::serve_both;
use crate::words_fault::WordsFault;
use closure_net::Net;
use ordered_group::Scaled;
use std::alloc::Global;
use std::sync::Wait;
use std::sync::atomic::AtomicBool;
use std::thread::Threads;
use workers::{Gate, SolveFault, Solved};

fn of_words_fault(fault: WordsFault) -> SolveFault
    ensures { result ≡ solve_fault fault }
{
    match fault {
        WordsFault::BadWorkers => SolveFault::BadWorkers,
        WordsFault::TooLarge => SolveFault::TooLarge,
        WordsFault::NoMemory => SolveFault::NoMemory,
    }
}

fn of_settle_fault(fault: SettleFault) -> SolveFault
    ensures { result ≡ settle_fault fault }
{
    match fault {
        SettleFault::Unsettled => SolveFault::Unsettled,
        SettleFault::NoMemory => SolveFault::NoMemory,
    }
}

// What a run by one worker leaves.
fn solved_by_one(alloc: Global, words: Words, ran: Served) -> Result<Solved<Scaled>, SolveFault>
    requires { IsServed words.shared 0 1 ran.seat }
    ensures { MatchResult result
        (λ solved. IsQuietEnd words.cut ran.seat.place.me.0.made solved.flow
        × (solved.steps ≡ ran.steps) × (ran.seat.stopped ≡ false))
        (λ fault. WordRunFaultStands words.cut fault) }
{
    let Served { seat, steps } = ran;
    if seat.stopped {
        return Err(SolveFault::TooLarge);
    }
    match settle_one(alloc, words, seat) {
        Ok(flow) => Ok(Solved { flow, steps }),
        Err(fault) => Err(of_settle_fault(fault)),
    }
}

// What a run by two leaves.
fn solved_by_two(
    alloc: Global,
    words: Words,
    left: Served,
    right: Served,
) -> Result<Solved<Scaled>, SolveFault>
    requires seats { IsServed words.shared 0 2 left.seat × IsServed words.shared 1 2 right.seat }
    requires steps { left.steps + right.steps < 2 ^ 64 }
    ensures { MatchResult result
        (λ solved. IsQuietEnd words.cut
        (left.seat.place.me.0.made ++ right.seat.place.me.0.made) solved.flow
        × (solved.steps ≡ left.steps + right.steps)
        × (left.seat.stopped ≡ false) × (right.seat.stopped ≡ false))
        (λ fault. WordRunFaultStands words.cut fault) }
{
    let steps = left.steps + right.steps;
    if left.seat.stopped || right.seat.stopped {
        return Err(SolveFault::TooLarge);
    }
    match settle_two(alloc, words, left.seat, right.seat) {
        Ok(flow) => Ok(Solved { flow, steps }),
        Err(fault) => Err(of_settle_fault(fault)),
    }
}

/// Runs the machine with one or two workers without a lock, each step one operation on one word that they share, and
/// returns the flow once no block has excess or an operation: a maximum flow of the net. One worker is the calling
/// thread, two are threads of their own.
///
/// Each worker takes at most `steps / workers` turns, and passes the gate before each. A turn is one step, or one load
/// of an arrival. After a round of its blocks in which none had excess, a worker loads both arrivals, and ends if all
/// has arrived. `steps` of the result are the steps that were made. The method is that of `workers::solve`.
///
/// # Errors
/// `BadWorkers` where there are neither one nor two. `TooLarge` where the positive worths sum to 2^63 units or more, or
/// where the flow of a pair came to 2^63 in a step, or a label would have. `Unsettled` where the turns were over before
/// all had arrived. `NoMemory` where memory was refused, `NoThread` where a worker couldn't be started; the one that
/// was has ended. `StrangerNet` never.
pub fn solve_words<R: Threads + Wait + Sync, T: Gate>(
    rt: &R,
    alloc: Global,
    net: &Net<Scaled>,
    workers: u32,
    steps: u64,
    gate: &T,
) -> Result<Solved<Scaled>, SolveFault>
    ensures { MatchResult result
        (λ solved. IsSolvedBy net.now workers steps solved.flow solved.steps)
        (λ fault. WordSolveFaultStands net.now workers fault) }
{
    if workers < 1 || workers > 2 {
        return Err(SolveFault::BadWorkers);
    }
    // proof: what is known of every net, that its pairs are of its blocks and in order
    let _net = net.worths();
    let (words, seat) = match words_of(alloc, net, workers) {
        Ok(begun) => begun,
        Err(fault) => return Err(of_words_fault(fault)),
    };
    if workers == 1 {
        let stop = AtomicBool::new(false);
        let ran = serve(&words, &stop, gate, seat, 0, steps);
        return solved_by_one(alloc, words, ran);
    }
    let Ok((left, right)) = split(alloc, &words, seat) else {
        return Err(SolveFault::NoMemory);
    };
    match serve_both(rt, &words, gate, left, right, steps / 2) {
        Some((left, right)) => solved_by_two(alloc, words, left, right),
        None => Err(SolveFault::NoThread),
    }
}
