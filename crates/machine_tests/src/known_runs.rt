//! Tries whole runs whose flows and numbers of steps are known from elsewhere. Small nets against the best of all
//! their closed sets are tests of the engines, which have both solvers.

use crate::board_turns::{carry, holds, same};
use crate::small_nets::net_of;
use closure_net::Net;
use ordered_group::WorthSize;
use std::process::Abort;
use workers::{OpenGate, SolveFault, Solved, solve};

fn took_nothing_in_ten(rt: &impl Abort, ran: &Solved<WorthSize>) {
    same(rt, ran.steps, 10);
    let none = WorthSize { nanos: 0, size: 0 };
    holds(rt, carry(ran.flow.source(), &[none]));
}

#[test]
fn one_block_takes_ten_steps(rt: HostRuntime) {
    let alloc = rt.alloc();
    let net: Net<WorthSize> = net_of(&rt, alloc, 1, &[], &[5_000_000_000]);
    let fault = solve(&rt, alloc, &net, 1, 9, &OpenGate).err();
    same(&rt, fault, Some(SolveFault::Unsettled));
    let ran = solve(&rt, alloc, &net, 1, 10, &OpenGate).expect(&rt, "run");
    took_nothing_in_ten(&rt, &ran);
}
