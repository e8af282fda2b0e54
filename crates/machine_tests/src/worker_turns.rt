//! Tries which block a worker asks for next, when its turns are over, and that turns under the lock make
//! steps.

use crate::board_turns::{holds, same};
use crate::small_nets::two_on_dear_waste;
use closure_net::Net;
use ordered_group::{OrderedGroup, Scaled, Worth, WorthSize};
use std::alloc::Global;
use std::process::Abort;
use std::sync::atomic::Ordering::SeqCst;
use std::sync::atomic::{AtomicBool, AtomicU64};
use std::sync::{Mutex, Wait};
use workers::{Board, End, Gate, Locked, OpenGate, Shared, Turn, TurnBoard, serve};

// The first step of block 1: the operation that it begins goes on.
const BEGUN: Turn = Turn::Stepped {
    block: 1,
    more: true,
};

// What a worker asks for.
#[derive(Clone, Copy, Debug, PartialEq, Eq)]
struct Question {
    own: Option<u32>,
    from: u32,
    steps: u64,
}

// The first questions, and how many there were.
#[derive(Drop)]
struct Asked {
    questions: [Option<Question>; 4],
    count: usize,
}

impl Asked {
    // Answers the place of the question.
    fn note(&mut self, question: Question) -> usize {
        let place = self.count;
        if place < 4 {
            self.questions[place] = Some(question);
            self.count = place + 1;
        }
        place
    }
}

// Answers each question in the same way, whoever asks, and notes it.
#[derive(Drop)]
struct Script {
    asked: Mutex<Asked>,
}

impl Script {
    fn new() -> Script {
        let asked = Asked {
            questions: [None; 4],
            count: 0,
        };
        Script {
            asked: Mutex::new(asked),
        }
    }
}

impl Shared for Script {
    fn act<R: Wait>(&self, rt: &R, own: Option<u32>, from: u32, steps: u64) -> Turn {
        let question = Question { own, from, steps };
        match self.asked.lock(rt).note(question) {
            0 => Turn::Stepped {
                block: 2,
                more: true,
            },
            1 => Turn::Stepped {
                block: 2,
                more: false,
            },
            2 => Turn::Idle,
            _ => Turn::Ended(End::Quiet),
        }
    }
}

// The question of a worker without a block, whose turns are ten.
fn asks_from(rt: &impl Abort, asked: Option<Question>, from: u32) {
    let question = Question {
        own: None,
        from,
        steps: 10,
    };
    assert_eq!(rt; asked, Some(question));
}

// Block 2 while it is at work, and else the next one.
fn keeps_its_block(rt: &impl Abort, asked: &Asked) {
    asks_from(rt, asked.questions[0], 1);
    same(rt, asked.questions[1].map(|q| q.own), Some(Some(2)));
    asks_from(rt, asked.questions[2], 3);
    asks_from(rt, asked.questions[3], 3);
    same(rt, asked.count, 4);
}

#[test]
fn a_worker_keeps_its_block_while_it_is_at_work(rt: HostRuntime) {
    let script = Script::new();
    same(&rt, serve(&rt, &script, &OpenGate, 1, 4, 10), End::Quiet);
    let asked = script.asked.into_inner();
    keeps_its_block(&rt, &asked);
}

#[test]
fn a_worker_ends_after_its_turns(rt: HostRuntime) {
    let script = Script::new();
    same(&rt, serve(&rt, &script, &OpenGate, 1, 4, 2), End::Limit);
    same(&rt, script.asked.into_inner().count, 2);
}

#[test]
fn a_worker_of_no_blocks_asks_from_the_first(rt: HostRuntime) {
    let script = Script::new();
    same(&rt, serve(&rt, &script, &OpenGate, 1, 0, 10), End::Quiet);
    let asked = script.asked.into_inner();
    asks_from(&rt, asked.questions[0], 0);
    asks_from(&rt, asked.questions[2], 0);
}

// Idle for whoever asks, a hundred times. Both the gate and what is after it: a question is in its turn
// where the gate was passed just before it.
#[derive(Drop)]
struct Idler {
    passed: AtomicU64,
    asked: AtomicU64,
    out_of_turn: AtomicBool,
}

impl Idler {
    fn new() -> Idler {
        Idler {
            passed: AtomicU64::new(0),
            asked: AtomicU64::new(0),
            out_of_turn: AtomicBool::new(false),
        }
    }
}

impl Gate for Idler {
    fn turn(&self, worker: u32, turn: u64) {
        let passed = self.passed.fetch_add(1, SeqCst);
        if worker != 3 || turn != passed || self.asked.load(SeqCst) != passed {
            self.out_of_turn.store(true, SeqCst);
        }
    }
}

impl Shared for Idler {
    fn act<R: Wait>(&self, _rt: &R, _own: Option<u32>, _from: u32, _steps: u64) -> Turn {
        if self.asked.fetch_add(1, SeqCst) < 100 {
            Turn::Idle
        } else {
            Turn::Ended(End::Stuck)
        }
    }
}

#[test]
fn idle_turns_are_counted_and_pass_the_gate_first(rt: HostRuntime) {
    let idler = Idler::new();
    same(&rt, serve(&rt, &idler, &idler, 3, 4, 5), End::Limit);
    same(
        &rt,
        (idler.passed.load(SeqCst), idler.asked.load(SeqCst)),
        (5, 5),
    );
    holds(&rt, !idler.out_of_turn.load(SeqCst));
}

// A turn under the lock makes one step, of the block that is asked for.
fn makes_a_step<S: Shared, R: Abort + Wait>(rt: &R, shared: &S) {
    same(rt, shared.act(rt, None, 1, 10), BEGUN);
}

// Turns under the lock make steps of a worker's own block, up to the limit.
fn makes_two_steps<S: Shared + Drop, R: Abort + Wait>(rt: &R, shared: S) {
    same(rt, shared.act(rt, None, 1, 2), BEGUN);
    same(rt, shared.act(rt, Some(1), 0, 2), BEGUN);
    same(rt, shared.act(rt, Some(1), 0, 2), Turn::Ended(End::Limit));
}

fn locked_board<G: OrderedGroup>(rt: &impl Abort, alloc: Global, net: &Net<G>) -> Locked<Board<G>> {
    Locked::new(Board::open(alloc, net).expect(rt, "memory"))
}

fn locked_turn_board<G: OrderedGroup>(
    rt: &impl Abort,
    alloc: Global,
    net: &Net<G>,
) -> Locked<TurnBoard<G>> {
    Locked::new(TurnBoard::open(alloc, net).expect(rt, "memory"))
}

fn on_a_board<G: OrderedGroup, R: Abort + Wait>(rt: &R, alloc: Global, net: &Net<G>)
where
    Locked<Board<G>>: Shared,
{
    let board = locked_board(rt, alloc, net);
    makes_a_step(rt, &board);
    same(rt, board.into_inner().count(), 1);
    makes_two_steps(rt, locked_board(rt, alloc, net));
}

// On a board that only turns change.
fn on_a_turn_board<G: OrderedGroup, R: Abort + Wait>(rt: &R, alloc: Global, net: &Net<G>)
where
    Locked<TurnBoard<G>>: Shared,
{
    let board = locked_turn_board(rt, alloc, net);
    makes_a_step(rt, &board);
    same(rt, board.into_inner().count(), 1);
    makes_two_steps(rt, locked_turn_board(rt, alloc, net));
}

fn makes_steps<G: OrderedGroup, R: Abort + Wait>(rt: &R, alloc: Global)
where
    Locked<Board<G>>: Shared,
    Locked<TurnBoard<G>>: Shared,
{
    let net: Net<G> = two_on_dear_waste(rt, alloc);
    on_a_board(rt, alloc, &net);
    on_a_turn_board(rt, alloc, &net);
}

#[test]
fn turns_under_the_lock_make_steps(rt: HostRuntime) {
    makes_steps::<Worth, _>(&rt, rt.alloc());
    makes_steps::<WorthSize, _>(&rt, rt.alloc());
    makes_steps::<Scaled, _>(&rt, rt.alloc());
}
