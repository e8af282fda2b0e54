//! Tries sums and differences of amounts at the ends of their numbers, their order, and the numbers
//! that certificates have for them.

use ordered_group::{
    Group, OrderedGroup, Scaled, Worth, WorthSize, at_most, laws, negative_part, positive_part,
    same, smaller, try_sum,
};
use std::fmt::Debug;
use std::process::Abort;

const MOST: i128 = i128::MAX;

const LEAST: i128 = i128::MIN;

// Fails the test where they differ. A call of it costs the proof less than the assertion in its place.
pub fn equal<T: PartialEq + Debug + Copy>(rt: &impl Abort, got: T, wanted: T) {
    assert_eq!(rt; got, wanted);
}

fn worth(nanos: i128) -> Worth {
    Worth { nanos }
}

fn pair(nanos: i128, size: i128) -> WorthSize {
    WorthSize { nanos, size }
}

#[test]
fn worths_at_the_ends(rt: HostRuntime) {
    for (one, other, sum) in &[
        (MOST - 1, 1, Some(worth(MOST))),
        (MOST, 1, None),
        (LEAST, -1, None),
    ] {
        equal(&rt, worth(*one).try_add(worth(*other)), *sum);
    }
    for (one, other, difference) in &[
        (LEAST + 1, 1, Some(worth(LEAST))),
        (LEAST, 1, None),
        (0, LEAST, None),
        (-1, LEAST, Some(worth(MOST))),
    ] {
        equal(&rt, worth(*one).try_sub(worth(*other)), *difference);
    }
}

#[test]
fn pairs_at_the_ends(rt: HostRuntime) {
    for (one, other, sum) in &[
        (pair(MOST, 0), pair(1, 0), None),
        (pair(0, MOST), pair(0, 1), None),
        (pair(0, LEAST), pair(0, -1), None),
        (
            pair(MOST, LEAST),
            pair(-1, 1),
            Some(pair(MOST - 1, LEAST + 1)),
        ),
    ] {
        equal(&rt, one.try_add(*other), *sum);
    }
    for (one, other, difference) in &[
        (pair(LEAST, 0), pair(1, 0), None),
        (pair(5, MOST), pair(4, -MOST), None),
        (pair(5, MOST), pair(4, MOST), Some(pair(1, 0))),
    ] {
        equal(&rt, one.try_sub(*other), *difference);
    }
}

#[test]
fn sums_in_order(rt: HostRuntime) {
    equal(&rt, try_sum(&[worth(MOST), worth(1), worth(-1)]), None);
    equal(
        &rt,
        try_sum(&[worth(MOST), worth(-1), worth(1)]),
        Some(worth(MOST)),
    );
    equal(
        &rt,
        try_sum(&[pair(6, -1), pair(5, -1), pair(-10, -1)]),
        Some(pair(1, -3)),
    );
    let none: [Worth; 0] = [];
    equal(&rt, try_sum(&none), Some(worth(0)));
}

#[test]
fn worth_before_size(rt: HostRuntime) {
    let (more_blocks, fewer_blocks, more_worth) = (pair(5, -3), pair(5, -2), pair(6, -9));
    assert!(rt; more_blocks < fewer_blocks && fewer_blocks < more_worth);
    assert!(rt; at_most(more_blocks, fewer_blocks) && !at_most(more_worth, fewer_blocks));
    assert!(rt; same(pair(5, -3), more_blocks) && !same(more_blocks, fewer_blocks));
    equal(&rt, smaller(more_worth, fewer_blocks), fewer_blocks);
    equal(&rt, smaller(more_blocks, fewer_blocks), more_blocks);
    assert!(rt; fewer_blocks.is_positive() && pair(0, 1).is_positive());
    assert!(rt; !pair(0, -1).is_positive() && !pair(0, 0).is_positive() && !worth(0).is_positive());
}

#[test]
fn parts_of_either_sign(rt: HostRuntime) {
    equal(&rt, positive_part(pair(0, -1)), pair(0, 0));
    equal(&rt, positive_part(pair(4, -1)), pair(4, -1));
    equal(&rt, negative_part(pair(0, -1)), Some(pair(0, 1)));
    equal(&rt, negative_part(pair(4, -1)), Some(pair(0, 0)));
    equal(&rt, negative_part(worth(LEAST)), None);
    equal(&rt, negative_part(pair(3, LEAST)), None);
}

#[test]
fn blocks_and_their_numbers(rt: HostRuntime) {
    equal(&rt, Worth::of_block(-7, 3), Some(worth(-7)));
    equal(&rt, WorthSize::of_block(-7, 3), Some(pair(-7, -1)));
    equal(&rt, worth(-7).parts(), (-7, 0));
    equal(&rt, pair(-7, -2).parts(), (-7, -2));
    equal(&rt, Worth::from_parts(-7, 0), Some(worth(-7)));
    equal(&rt, Worth::from_parts(-7, 1), None);
    equal(&rt, WorthSize::from_parts(-7, 1), Some(pair(-7, 1)));
    equal(&rt, pair(1, -3).nanos_of_set(3, 3), Some(1));
    equal(&rt, worth(1).nanos_of_set(3, 3), Some(1));
    assert!(rt; Worth::group() == Group::Worth && WorthSize::group() == Group::Pair);
}

#[test]
fn laws_at_each_group(rt: HostRuntime) {
    laws::amounts_are_an_ordered_group();
    laws::set_sums_tell_worth::<Worth>();
    laws::set_sums_tell_worth::<WorthSize>();
    laws::block_amounts_tell_worth::<Worth>();
    laws::block_amounts_tell_worth::<WorthSize>();
    laws::set_sums_order_sets::<WorthSize>();
    laws::set_sums_tell_worth::<Scaled>();
    laws::block_amounts_tell_worth::<Scaled>();
    laws::set_sums_order_sets::<Scaled>();
    laws::values_are_ordered_as_amounts(worth(5), worth(6));
    laws::values_are_ordered_as_amounts(pair(5, -3), pair(5, -2));
    laws::values_are_ordered_as_amounts(Scaled { units: 5 }, Scaled { units: 6 });
    assert!(rt; worth(5) < worth(6));
}
