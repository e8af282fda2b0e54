//! Lets two workers take their turns in threads of their own until both have ended, and gives their private data
//! back, or nothing where a thread couldn't start.

ghost use Rattle.std.specs.Prelude.{◌≡◌, IfSome};
ghost use Rattle.word_runner.specs.Openings.{IsFirst};
ghost use Rattle.word_runner.specs.Runs.{SeatHasServed};

use crate::net_words::Words;
use crate::seats::WordSeat;
use crate::serving::{Served, serve};
use std::sync::Wait;
use std::sync::atomic::AtomicBool;
use std::sync::atomic::Ordering::SeqCst;
use std::thread;
use std::thread::{Promise, Threads};
use workers::Gate;

// What a worker hands back: the seat of these words that has this number.
#[derive(Clone, Copy)]
struct Worker<'a> {
    words: &'a Words,
    number: u32,
    turns: u64,
}

impl<'a> Promise<Served> for Worker<'a> {
    ghost kept_by = { λ p r. SeatHasServed p.words.now p.number 2 p.turns r.seat r.steps };
}

/// Lets two workers take their turns, each in a thread of its own, and hands their seats back. None where a thread
/// couldn't be started; the one that was has ended.
pub fn serve_both<R: Threads + Wait + Sync, T: Gate>(
    rt: &R,
    words: &Words,
    gate: &T,
    left: WordSeat,
    right: WordSeat,
    turns: u64,
) -> Option<(Served, Served)>
    requires two { words.now.workers ≡ 2 }
    requires left { IsFirst words.now 0 2 left }
    requires right { IsFirst words.now 1 2 right }
    ensures { IfSome result (λ s. SeatHasServed words.now 0 2 turns s.0.seat s.0.steps
        × SeatHasServed words.now 1 2 turns s.1.seat s.1.steps) }
{
    let flag = AtomicBool::new(false);
    let stop = &flag;
    thread::scope(
        thread::scope_env(),
        rt,
        |scope| -> Option<(Served, Served)>
            requires two { words.now.workers ≡ 2 }
            requires left { IsFirst words.now 0 2 left }
            requires right { IsFirst words.now 1 2 right }
            ensures { IfSome result (λ s. SeatHasServed words.entry.now 0 2 turns s.0.seat s.0.steps
                × SeatHasServed words.entry.now 1 2 turns s.1.seat s.1.steps) }
        {
            let first = scope.spawn_with(
                Worker {
                    words,
                    number: 0,
                    turns,
                },
                move || -> Served
                    requires two { words.now.workers ≡ 2 }
                    requires left { IsFirst words.now 0 2 left }
                    ensures { SeatHasServed words.entry.now 0 2 turns result.seat result.steps }
                { serve(words, stop, gate, left, 0, turns) },
            );
            let second = scope.spawn_with(
                Worker {
                    words,
                    number: 1,
                    turns,
                },
                move || -> Served
                    requires two { words.now.workers ≡ 2 }
                    requires right { IsFirst words.now 1 2 right }
                    ensures { SeatHasServed words.entry.now 1 2 turns result.seat result.steps }
                { serve(words, stop, gate, right, 1, turns) },
            );
            match (first, second) {
                (Ok(first), Ok(second)) => {
                    let left = first.join(rt);
                    let right = second.join(rt);
                    Some((left, right))
                }
                // the one that was started would wait for the other until its turns are over
                _ => {
                    stop.store(true, SeqCst);
                    None
                }
            }
        },
    )
}
