//! The turns of one worker without a lock: goes round its blocks step by step until all has arrived, a number of
//! either worker is too large, or the turns are used up.

ghost use Rattle.std.specs.Prelude.{◌≡◌, ◌<◌, ◌≤◌, ◌+◌, ◌^◌, length, MatchResult};
ghost use Rattle.word_runner.specs.Openings.{IsFirst};
ghost use Rattle.word_runner.specs.Runs.{IsRound, SeatHasServed};

use crate::net_words::Words;
use crate::seats::WordSeat;
use crate::turns::WordTurn;
use std::sync::atomic::AtomicBool;
use std::sync::atomic::Ordering::SeqCst;
use std::thread;
use workers::{Gate, Pause};

/// A worker's seat once its turns are over, and how many steps it made.
#[derive(Drop)]
pub struct Served {
    pub seat: WordSeat,
    pub steps: u64,
}

// Where a worker is in a round of its blocks.
#[derive(Drop)]
pub(crate) struct Round {
    pub(crate) seat: WordSeat,
    pub(crate) steps: u64,
    pub(crate) at: u32,
    // whether a block of this round had excess
    found: bool,
    // what had arrived at the source, where it was loaded
    source: Option<u64>,
    // how it waits after a round in which no block had excess
    pause: Pause,
}

// The first round of the seat of this number.
pub(crate) fn first_round(seat: WordSeat, number: u32) -> Round
    ensures { (result.seat ≡ seat) × (result.at ≡ number) × (result.steps ≡ 0) }
{
    Round {
        seat,
        steps: 0,
        at: number,
        found: false,
        source: None,
        pause: Pause::shortest(),
    }
}

// In a long round in which no block has had excess yet, lets the other worker run now and then.
fn pause_within(at: u32, found: bool) {
    if !found && at > 2 && at % 256 < 2 {
        thread::yield_now();
    }
}

// The step that is next at the block of the round.
fn step_at(words: &Words, round: Round, _number: u32, _turn: u64) -> Result<Round, Served>
    requires round { IsRound words.now _number round.seat round.at round.steps _turn }
    requires block { (round.at < length words.now.cut.worths) × (_number < words.now.workers)
        × (_turn + 1 < 2 ^ 64) }
    ensures { MatchResult result
        (λ next. IsRound words.now _number next.seat next.at next.steps (_turn + 1))
        (λ served. SeatHasServed words.now _number words.now.workers
        (_turn + 1) served.seat served.steps) }
{
    // proof: a net has at most `MOST_BLOCKS` blocks
    let _few = words.net.rests().len();
    let Round {
        seat,
        steps,
        at,
        found,
        source,
        pause,
    } = round;
    let mut seat = seat;
    match seat.turn(words, at) {
        WordTurn::Stepped {
            event: _,
            more: true,
        } => Ok(Round {
            seat,
            steps: steps + 1,
            at,
            found: true,
            source,
            pause: Pause::shortest(),
        }),
        WordTurn::Stepped {
            event: _,
            more: false,
        } => {
            pause_within(at, found);
            Ok(Round {
                seat,
                steps: steps + 1,
                at: at + words.workers,
                found,
                source,
                pause,
            })
        }
        WordTurn::TooLarge => Err(Served { seat, steps }),
    }
}

// A load of an arrival, after a round in which no block had excess: first of the source's, and then of the sink's,
// after which the run ends where they sum to the total, and else the next round begins after a pause.
fn look_at(words: &Words, round: Round, number: u32, _turn: u64) -> Result<Round, Served>
    requires round { IsRound words.now number round.seat round.at round.steps _turn }
    requires over { (length words.now.cut.worths ≤ round.at) × (number < words.now.workers) }
    ensures { MatchResult result
        (λ next. IsRound words.now number next.seat next.at next.steps (_turn + 1))
        (λ served. SeatHasServed words.now number words.now.workers
        (_turn + 1) served.seat served.steps) }
{
    let Round {
        seat,
        steps,
        at,
        found,
        source,
        pause,
    } = round;
    let mut seat = seat;
    match source {
        None => {
            let amount = seat.load(words, 0);
            Ok(Round {
                seat,
                steps,
                at,
                found,
                source: Some(amount),
                pause,
            })
        }
        Some(amount) => {
            if seat.load(words, 1).wrapping_add(amount) == words.total {
                return Err(Served { seat, steps });
            }
            Ok(Round {
                seat,
                steps,
                at: number,
                found,
                source: None,
                pause: pause.waited(),
            })
        }
    }
}

// One turn.
pub(crate) fn take_turn(
    words: &Words,
    round: Round,
    number: u32,
    turn: u64,
) -> Result<Round, Served>
    requires round { IsRound words.now number round.seat round.at round.steps turn }
    requires few { (number < words.now.workers) × (turn + 1 < 2 ^ 64) }
    ensures { MatchResult result
        (λ next. IsRound words.now number next.seat next.at next.steps (turn + 1))
        (λ served. SeatHasServed words.now number words.now.workers
        (turn + 1) served.seat served.steps) }
{
    let blocks = words.net.rests().len();
    if round.at < blocks {
        return step_at(words, round, number, turn);
    }
    if !round.found {
        return look_at(words, round, number, turn);
    }
    let next = next_round(words, round, number, turn);
    if next.at < blocks {
        step_at(words, next, number, turn)
    } else {
        look_at(words, next, number, turn)
    }
}

// The next round.
fn next_round(words: &Words, round: Round, number: u32, _turn: u64) -> Round
    requires round { IsRound words.now number round.seat round.at round.steps _turn }
    requires over { (length words.now.cut.worths ≤ round.at) × (number < words.now.workers) }
    ensures { IsRound words.now number result.seat result.at result.steps _turn }
{
    // proof: the words are under their rule
    let _words = words.total;
    Round {
        seat: round.seat,
        steps: round.steps,
        at: number,
        found: false,
        source: None,
        pause: round.pause,
    }
}

/// Takes at most so many turns of the seat of this number, and passes the gate before each. It goes round its blocks,
/// ascending, with one operation for each. After a round in which no block had excess it loads both arrivals, which are
/// two turns, and ends where they sum to the total; where they don't, it lets the other worker run, and longer the more
/// often it found nothing. It ends also where a turn is too large, which it tells the other worker by the flag.
pub fn serve<T: Gate>(
    words: &Words,
    stop: &AtomicBool,
    gate: &T,
    seat: WordSeat,
    number: u32,
    turns: u64,
) -> Served
    requires few { number < words.now.workers }
    requires first { IsFirst words.now number words.now.workers seat }
    ensures { SeatHasServed words.now number words.now.workers turns result.seat result.steps }
{
    let mut round = first_round(seat, number);
    for turn in 0..turns {
        if stop.load(SeqCst) {
            break;
        }
        gate.turn(number, turn);
        match take_turn(words, round, number, turn) {
            Ok(next) => round = next,
            Err(served) => {
                if served.seat.stopped {
                    stop.store(true, SeqCst);
                }
                return served;
            }
        }
    }
    Served {
        seat: round.seat,
        steps: round.steps,
    }
}
