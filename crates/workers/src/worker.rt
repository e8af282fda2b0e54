//! The turns of one worker at a shared run, up to a limit: goes on with its block's operation or picks
//! an active block, waits where there is none, and tells why it ended.

use crate::gate::Gate;
use crate::locked::Shared;
use crate::pause::Pause;
use boards::{End, Turn};
use std::sync::Wait;

// The block after another, going round.
fn block_after(block: u32, blocks: u32) -> u32 {
    if blocks == 0 {
        0
    } else {
        (block % blocks + 1) % blocks
    }
}

/// Takes the turns of one worker, at most `steps`, and passes the gate before each. It keeps its block
/// while the operation goes on, and else asks for the next block after its last one, going round all
/// `blocks`; at first for the one of its own number. After a turn that found nothing it lets others run.
/// Answers why the run ended, and the limit where it took all its turns.
pub fn serve<R: Wait, S: Shared, T: Gate>(
    rt: &R,
    shared: &S,
    gate: &T,
    worker: u32,
    blocks: u32,
    steps: u64,
) -> End {
    let mut own = None;
    let mut pause = Pause::shortest();
    let mut from = if blocks == 0 { 0 } else { worker % blocks };
    for turn in 0..steps {
        gate.turn(worker, turn);
        match shared.act(rt, own, from, steps) {
            Turn::Stepped { block, more: true } => {
                own = Some(block);
                pause = Pause::shortest();
            }
            Turn::Stepped { block, more: false } => {
                own = None;
                from = block_after(block, blocks);
                pause = Pause::shortest();
            }
            Turn::Idle => {
                own = None;
                pause = pause.waited();
            }
            Turn::Ended(end) => return end,
        }
    }
    End::Limit
}
