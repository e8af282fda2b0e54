//! Tries whole runs on one thread that picks its steps by rule: that they end with a maximum flow,
//! at their limit, or where a number is too large.

ghost use Rattle.std.specs.Prelude.{◌≤◌};

use crate::board_turns::{leaves, same, settled};
use crate::small_nets::{sizes_too_large, two_on_dear_waste};
use async_step::MOST_STEPS;
use boards::{End, Turn, TurnBoard, finish};
use closure_net::Net;
use ordered_group::WorthSize;
use std::alloc::Global;
use std::process::Abort;

fn turn_board(rt: &impl Abort, alloc: Global, net: Net<WorthSize>) -> TurnBoard<WorthSize> {
    TurnBoard::open(alloc, &net).expect(rt, "memory")
}

// The run is finished within these steps, and ends for this reason.
fn ends(rt: &impl Abort, board: &mut TurnBoard<WorthSize>, steps: u64, end: End)
    requires { steps ≤ MOST_STEPS }
{
    assert!(rt; board.count() <= steps);
    assert_eq!(rt; finish(board, steps), end);
}

#[test]
fn a_run_ends_quiet_with_a_greatest_flow(rt: HostRuntime) {
    let mut board = turn_board(&rt, rt.alloc(), two_on_dear_waste(&rt, rt.alloc()));
    ends(&rt, &mut board, 1_000, End::Quiet);
    let (net, flow) = settled(&rt, board.into_board());
    leaves(&rt, rt.alloc(), &net, &flow, &[0, 1, 2]);
}

#[test]
fn a_run_ends_at_its_limit(rt: HostRuntime) {
    let mut board = turn_board(&rt, rt.alloc(), two_on_dear_waste(&rt, rt.alloc()));
    ends(&rt, &mut board, 3, End::Limit);
    let board = board.into_board();
    same(&rt, board.count(), 3);
}

#[test]
fn a_run_ends_where_a_sum_is_too_large(rt: HostRuntime) {
    let mut board = turn_board(&rt, rt.alloc(), sizes_too_large(&rt, rt.alloc()));
    ends(&rt, &mut board, 1_000, End::Stuck);
    let mut board = board.into_board();
    same(&rt, board.turn(None, 0, 1_000), Turn::Ended(End::Stuck));
    // it is stuck for every worker, at its limit too
    let made = board.count();
    same(&rt, board.turn(Some(1), 1, made), Turn::Ended(End::Stuck));
}

// The first step of block 1: the operation that it begins goes on.
fn begins(rt: &impl Abort, board: &mut TurnBoard<WorthSize>) {
    let begun = Turn::Stepped {
        block: 1,
        more: true,
    };
    same(rt, board.turn(None, 1, 10), begun);
}

// What one worker left is finished by another: its operation first.
#[test]
fn a_run_that_was_left_is_finished(rt: HostRuntime) {
    let mut board = turn_board(&rt, rt.alloc(), two_on_dear_waste(&rt, rt.alloc()));
    begins(&rt, &mut board);
    ends(&rt, &mut board, 1_000, End::Quiet);
}
