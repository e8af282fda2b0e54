//! Tries amounts that hold worth and size in one number: at the ends of their numbers, and what
//! they tell of sets of blocks.

use crate::groups::equal;
use ordered_group::{Group, OrderedGroup, Scaled};

const MOST: i128 = i128::MAX;

const LEAST: i128 = i128::MIN;

fn scaled(units: i128) -> Scaled {
    Scaled { units }
}

#[test]
fn units_of_blocks(rt: HostRuntime) {
    for (nanos, n, units) in &[
        (6_000_000_000, 3, Some(scaled(23_999_999_999))),
        (5_000_000_000, 3, Some(scaled(19_999_999_999))),
        (-10_000_000_000, 3, Some(scaled(-40_000_000_001))),
        // w * (n + 1) alone doesn't fit
        (1 << 126, 1, Some(scaled(MOST))),
        ((1 << 126) + 1, 1, None),
        (1 << 95, u32::MAX, Some(scaled(MOST))),
        (1 - (1 << 126), 1, Some(scaled(LEAST + 1))),
        (-(1 << 126), 1, None),
        (MOST, 0, Some(scaled(MOST - 1))),
        (LEAST + 1, 0, Some(scaled(LEAST))),
        (LEAST, 0, None),
    ] {
        equal(&rt, Scaled::of_block(*nanos, *n), *units);
    }
}

#[test]
fn worths_of_sets_by_their_units(rt: HostRuntime) {
    for (units, n, count, nanos) in &[
        (3_999_999_997, 3, 3, Some(1_000_000_000)),
        (-40_000_000_001, 3, 1, Some(-10_000_000_000)),
        (-1, 3, 1, Some(0)),
        (0, 3, 0, Some(0)),
        // the units and the count together don't fit
        (MOST, 1, 1, Some(1 << 126)),
        (LEAST + 1, 1, 1, Some(1 - (1 << 126))),
        (MOST, 0, 1, None),
    ] {
        equal(&rt, scaled(*units).nanos_of_set(*n, *count), *nanos);
    }
}

#[test]
fn sums_and_differences_of_units_at_the_ends(rt: HostRuntime) {
    for (one, other, sum, difference) in &[
        (MOST - 1, 1, Some(scaled(MOST)), Some(scaled(MOST - 2))),
        (MOST, 1, None, Some(scaled(MOST - 1))),
        (-1, LEAST, None, Some(scaled(MOST))),
        (0, LEAST, Some(scaled(LEAST)), None),
    ] {
        equal(&rt, scaled(*one).try_add(scaled(*other)), *sum);
        equal(&rt, scaled(*one).try_sub(scaled(*other)), *difference);
    }
}

#[test]
fn units_and_their_numbers(rt: HostRuntime) {
    equal(&rt, Scaled::zero(), scaled(0));
    assert!(rt; scaled(1).is_positive() && !scaled(0).is_positive() && scaled(1) < scaled(2));
    equal(&rt, scaled(-7).parts(), (-7, 0));
    equal(&rt, Scaled::from_parts(-7, 0), Some(scaled(-7)));
    equal(&rt, Scaled::from_parts(-7, 1), None);
    assert!(rt; Scaled::group() == Group::Scaled);
}
