//! Tries which offsets slope patterns have, and which predecessors they give the blocks of a cube, upward and
//! downward.

use blocks_file::{BlockModel, read_blocks};
use prec_file::Rests;
use slope::{predecessors_of, rests_of};
use slope_offsets::{Pattern, PatternFault, Selection, Up};
use std::alloc::Global;
use std::fmt::Debug;
use std::process::Abort;
use std::test::Fail;

// Fails the test where they differ. A call of it costs the proof less than the assertion in its place.
fn equal<T: PartialEq + Debug + Copy>(rt: &impl Abort, got: T, wanted: T) {
    assert_eq!(rt; got, wanted);
}

// Three by three by two blocks, numbered 9z + 3y + x.
const CUBE: &[u8] = b"0 0 0 0
1 1 0 0
2 2 0 0
3 0 1 0
4 1 1 0
5 2 1 0
6 0 2 0
7 1 2 0
8 2 2 0
9 0 0 1
10 1 0 1
11 2 0 1
12 0 1 1
13 1 1 1
14 2 1 1
15 0 2 1
16 1 2 1
17 2 2 1
";

// The blocks of CUBE, with the sign of each height changed.
const MIRRORED_CUBE: &[u8] = b"0 0 0 0
1 1 0 0
2 2 0 0
3 0 1 0
4 1 1 0
5 2 1 0
6 0 2 0
7 1 2 0
8 2 2 0
9 0 0 -1
10 1 0 -1
11 2 0 -1
12 0 1 -1
13 1 1 -1
14 2 1 -1
15 0 2 -1
16 1 2 -1
17 2 2 -1
";

fn model(alloc: Global, text: &[u8]) -> Result<BlockModel, Fail> {
    Ok(read_blocks(alloc, text, &[])?)
}

// Whether the two have the same blocks and pairs.
fn same(one: &Rests, other: &Rests) -> bool {
    if one.len() != other.len() || one.pairs() != other.pairs() {
        return false;
    }
    for i in 0..one.pairs().min(other.pairs()) {
        if one.pair(i) != other.pair(i) {
            return false;
        }
    }
    true
}

// What a block rests on.
fn above(rests: &Rests, block: u32) -> &[u32] {
    if block < rests.len() {
        rests.above(block)
    } else {
        &[]
    }
}

// A pattern has these offsets, in this order.
fn has_offsets(
    rt: &impl Abort,
    pattern: Result<Pattern, PatternFault>,
    offsets: &[(i32, i32, i32)],
) -> Result<(), Fail> {
    let pattern = pattern?;
    equal(rt, pattern.offsets(), offsets);
    Ok(())
}

#[test]
fn five_blocks_above(rt: HostRuntime) -> Result<(), Fail> {
    let alloc: Global = rt.alloc();
    let wanted = [(-1, 0, 1), (0, -1, 1), (0, 0, 1), (0, 1, 1), (1, 0, 1)];
    has_offsets(&rt, Pattern::five(alloc), &wanted)?;
    has_offsets(&rt, Pattern::cone(alloc, 1, 1, 1), &wanted)
}

// How many offsets a pattern has.
fn count(pattern: Result<Pattern, PatternFault>) -> Result<usize, PatternFault> {
    match pattern {
        Ok(pattern) => Ok(pattern.offsets().len()),
        Err(fault) => Err(fault),
    }
}

#[test]
fn cones(rt: HostRuntime) -> Result<(), Fail> {
    let alloc: Global = rt.alloc();
    equal(&rt, count(Pattern::cone(alloc, 2, 1, 1)), Ok(18));
    // a cone so narrow that it has the blocks right above alone
    let narrow = Pattern::cone(alloc, 3, 1, 1000);
    has_offsets(&rt, narrow, &[(0, 0, 1), (0, 0, 2), (0, 0, 3)])?;
    let wide = Pattern::cone(alloc, 1000, 1000, 1);
    equal(&rt, count(wide), Err(PatternFault::TooMany));
    Ok(())
}

#[test]
fn listed_offsets(rt: HostRuntime) -> Result<(), Fail> {
    let alloc: Global = rt.alloc();
    let listed = Pattern::custom(alloc, &[(1, 0, 2), (0, 0, 1), (1, 0, 2)]);
    has_offsets(&rt, listed, &[(0, 0, 1), (1, 0, 2)])?;
    equal(&rt, count(Pattern::custom(alloc, &[])), Ok(0));
    let level = Pattern::custom(alloc, &[(0, 0, 1), (0, 0, 0)]);
    equal(&rt, count(level), Err(PatternFault::NotUpward(1)));
    Ok(())
}

// How many offsets are left of the same one, listed so many times, and then of another, if there is one.
fn count_repeated(
    alloc: Global,
    times: usize,
    last: Option<(i32, i32, i32)>,
) -> Result<Result<usize, PatternFault>, Fail> {
    let mut offsets = vec![in alloc; (0, 0, 1); times]?;
    if let Some(last) = last {
        offsets.push(last)?;
    }
    Ok(count(Pattern::custom(alloc, &offsets)))
}

#[test]
fn too_many_listed_offsets(rt: HostRuntime) -> Result<(), Fail> {
    let alloc: Global = rt.alloc();
    let most = count_repeated(alloc, 4_096, None)?;
    equal(&rt, most, Ok(1));
    let repeated = count_repeated(alloc, 4_097, None)?;
    equal(&rt, repeated, Err(PatternFault::TooMany));
    let downward = count_repeated(alloc, 4_097, Some((0, 0, -1)))?;
    equal(&rt, downward, Err(PatternFault::NotUpward(4_097)));
    Ok(())
}

// The pairs of a text's blocks by a pattern.
fn pairs_of(
    alloc: Global,
    text: &[u8],
    pattern: Result<Pattern, PatternFault>,
    up: Up,
) -> Result<Rests, Fail> {
    let pattern = pattern?;
    let model = model(alloc, text)?;
    Ok(rests_of(alloc, &model, &pattern, up, Selection::Every)?)
}

#[test]
fn nine_above_on_a_cube(rt: HostRuntime) -> Result<(), Fail> {
    let alloc: Global = rt.alloc();
    let rests = pairs_of(alloc, CUBE, Pattern::nine(alloc), Up::PlusZ)?;
    equal(&rt, rests.pairs(), 49);
    let of_middle = [9, 10, 11, 12, 13, 14, 15, 16, 17];
    equal(&rt, above(&rests, 4), of_middle.as_slice());
    equal(&rt, above(&rests, 0), [9, 10, 12, 13].as_slice());
    equal(&rt, above(&rests, 17).len(), 0);
    Ok(())
}

// Whether these have so many pairs, and the same as the mirrored cube has upward.
fn mirrored(alloc: Global, down: &Rests, pairs: u32) -> Result<bool, Fail> {
    let up = pairs_of(alloc, MIRRORED_CUBE, Pattern::nine(alloc), Up::PlusZ)?;
    Ok(down.pairs() == pairs && same(down, &up))
}

#[test]
fn upside_down(rt: HostRuntime) -> Result<(), Fail> {
    let alloc: Global = rt.alloc();
    let down = pairs_of(alloc, CUBE, Pattern::nine(alloc), Up::MinusZ)?;
    assert!(rt; mirrored(alloc, &down, 49)?);
    Ok(())
}

#[test]
fn predecessors_alone(rt: HostRuntime) -> Result<(), Fail> {
    let alloc: Global = rt.alloc();
    let five = Pattern::five(alloc)?;
    let cube = model(alloc, CUBE)?;
    let predecessors = predecessors_of(alloc, &cube, &five, Up::PlusZ, Selection::Every)?;
    equal(&rt, predecessors.len(), 18);
    if predecessors.len() == 18 {
        let above: &[u32] = &[9, 10, 12];
        equal(&rt, predecessors.above(0), above);
        let above: &[u32] = &[10, 12, 13, 14, 16];
        equal(&rt, predecessors.above(4), above);
        let above: &[u32] = &[];
        equal(&rt, predecessors.above(13), above);
    }
    Ok(())
}
