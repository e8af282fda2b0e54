//! Gives the tests small nets whose best pits are known.

ghost use Rattle.std.specs.Prelude.{◌≤◌};

use closure_net::Net;
use ordered_group::{OrderedGroup, WorthSize};
use prec_file::Rests;
use std::alloc::Global;
use std::process::Abort;

/// A net of so many blocks, of these pairs and these worths in billionths.
pub fn net_of<G: OrderedGroup>(
    rt: &impl Abort,
    alloc: Global,
    n: u32,
    pairs: &[(u32, u32)],
    nanos: &[i128],
) -> Net<G>
    requires { n ≤ 100 }
{
    let rests = Rests::from_pairs(alloc, n, pairs).expect(rt, "pairs");
    Net::of_worths(alloc, rests, nanos).expect(rt, "worths")
}

/// Blocks worth 6 and 5 that rest on one of worth -10. All three are the best pit.
pub fn two_on_dear_waste<G: OrderedGroup>(rt: &impl Abort, alloc: Global) -> Net<G> {
    let nanos = [6_000_000_000, 5_000_000_000, -10_000_000_000];
    net_of(rt, alloc, 3, &[(0, 2), (1, 2)], &nanos)
}

/// A block worth 10 that rests on one of worth -10. With sizes counted the best pit is empty.
pub fn worth_what_it_costs<G: OrderedGroup>(rt: &impl Abort, alloc: Global) -> Net<G> {
    net_of(rt, alloc, 2, &[(0, 1)], &[10_000_000_000, -10_000_000_000])
}

/// Blocks worth 3 and -2 that rest on each other. Both are the best pit.
pub fn each_on_the_other<G: OrderedGroup>(rt: &impl Abort, alloc: Global) -> Net<G> {
    net_of(
        rt,
        alloc,
        2,
        &[(0, 1), (1, 0)],
        &[3_000_000_000, -2_000_000_000],
    )
}

/// Two blocks of worth 4 that rest on one of worth -1. All three are the best pit.
pub fn two_on_waste<G: OrderedGroup>(rt: &impl Abort, alloc: Global) -> Net<G> {
    let nanos = [4_000_000_000, -1_000_000_000, 4_000_000_000];
    net_of(rt, alloc, 3, &[(0, 1), (2, 1)], &nanos)
}

/// Sizes whose sum is beyond their type: 24 steps can be made, and the next one leads there.
pub fn sizes_too_large(rt: &impl Abort, alloc: Global) -> Net<WorthSize> {
    let rests = Rests::from_pairs(alloc, 2, &[(0, 1)]).expect(rt, "pairs");
    let worths = [
        WorthSize {
            nanos: 5,
            size: i128::MAX,
        },
        WorthSize {
            nanos: -4,
            size: i128::MAX,
        },
    ];
    let worths = Vec::from_slice(alloc, &worths).expect(rt, "memory");
    Net::build(rests, worths).expect(rt, "net")
}
