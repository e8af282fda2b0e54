//! A way to treat blocks, as milling or leaching: what each earns by it and what it costs to process it so; and which
//! of several ways is worth most.

ghost use Rattle.std.specs.Prelude.{◌≡◌, ◌<◌, ◌≤◌, ◌^◌, ◌*◌, ◌↔◌, ◌<ℤ◌, ◌≤ℤ◌, pos, length, map, position, slice_index_or, unsigned_abs, IsTrue, All, Any, MatchBool};
ghost use Rattle.std.specs.Ordering.{int_eq};
ghost use Rattle.fixed_worth.specs.declared.limits.TheConstants.{MOST_FACTOR};
ghost use Rattle.shells.specs.Prices.{HasNumbers, best_of, first_best, left_at, number_at, worths_by};
ghost use Rattle.shells.specs.declared.most_ways.TheConstants.{MOST_WAYS};

use crate::amounts::left_of;
use fixed_worth::{MOST_FACTOR, Micros};
use std::marker::Model;

/// A way to treat blocks: what each earns where it is treated so, and what it costs to process it.
#[derive(Drop)]
pub struct Way {
    revenue: Vec<Micros>,
    processing: Vec<Micros>,
}

impl Model for Way {
    ghost use Rattle.shells.specs.Prices.{WayView};

    ghost Value = { WayView };

    ghost view = { λ w. record { revenue = w.revenue.items; processing = w.processing.items } };
}

impl Way {
    /// The way by which blocks earn these revenues, block by block, and are charged these costs of processing.
    pub fn new(revenue: Vec<Micros>, processing: Vec<Micros>) -> Way
        ensures { result ≡ record { revenue = revenue.items; processing = processing.items } }
    {
        Way {
            revenue,
            processing,
        }
    }

    // Whether both lists have so many numbers.
    fn has_numbers(&self, blocks: usize) -> bool
        ensures { IsTrue result ↔ HasNumbers blocks self.now }
    {
        self.revenue.len() == blocks && self.processing.len() == blocks
    }

    // What block b is worth by this way, in billionths, before it is mined.
    fn worth(&self, thousandths: u32, b: usize) -> i128
        requires factor { thousandths ≤ MOST_FACTOR }
        requires revenue { b < length self.now.revenue }
        requires processing { b < length self.now.processing }
        ensures is { result ≡ left_at self.now.revenue self.now.processing thousandths b }
        ensures bound { unsigned_abs result ≤ 2 * 10 ^ 22 }
    {
        left_of(self.revenue[b], self.processing[b], thousandths)
    }

    // Whether block b would earn less than nothing.
    fn is_negative(&self, b: usize) -> bool
        requires { b < length self.now.revenue }
        ensures { MatchBool result
            (number_at self.now.revenue b <ℤ pos 0)
            (pos 0 ≤ℤ number_at self.now.revenue b) }
    {
        self.revenue[b].get() < 0
    }
}

// Whether all lists of these ways have so many numbers.
pub(crate) fn have_numbers(ways: &[Way], blocks: usize) -> bool
    ensures { IsTrue result ↔ All (HasNumbers blocks) ways.now }
{
    for i in 0..ways.len() {
        if !ways[i].has_numbers(blocks) {
            return false;
        }
    }
    true
}

// Whether block b would earn less than nothing by one of these ways.
pub(crate) fn is_some_negative(ways: &[Way], b: usize, blocks: usize) -> bool
    requires ways { All (HasNumbers blocks) ways.now }
    requires block { b < blocks }
    ensures { MatchBool result
        (Any (λ r. r <ℤ pos 0) (map (λ way. number_at way.revenue b) ways.now))
        (All (λ r. pos 0 ≤ℤ r) (map (λ way. number_at way.revenue b) ways.now)) }
{
    for i in 0..ways.len() {
        if ways[i].is_negative(b) {
            return true;
        }
    }
    false
}

// What block b is worth by the best of these ways, or as waste, in billionths and before it is mined.
pub(crate) fn best_worth(ways: &[Way], thousandths: u32, b: usize, blocks: usize) -> i128
    requires ways { All (HasNumbers blocks) ways.now }
    requires factor { thousandths ≤ MOST_FACTOR }
    requires block { b < blocks }
    ensures is { result ≡ best_of (worths_by ways.now thousandths b) }
    ensures bound { unsigned_abs result ≤ 2 * 10 ^ 22 }
{
    let mut best = 0;
    for i in 0..ways.len() {
        best = ways[i].worth(thousandths, b).max(best);
    }
    best
}

// What block b is worth by the way at this place, in billionths and before it is mined; as waste where there is none.
pub(crate) fn worth_one_way(
    ways: &[Way],
    way: usize,
    thousandths: u32,
    b: usize,
    blocks: usize,
) -> i128
    requires ways { All (HasNumbers blocks) ways.now }
    requires factor { thousandths ≤ MOST_FACTOR }
    requires block { b < blocks }
    ensures is { result ≡ slice_index_or (worths_by ways.now thousandths b) way (pos 0) }
    ensures bound { unsigned_abs result ≤ 2 * 10 ^ 22 }
{
    if way < ways.len() {
        ways[way].worth(thousandths, b)
    } else {
        0
    }
}

// Which of these ways block b goes, by its place among them: the first that is worth most; none where it goes to waste.
pub(crate) fn best_way(ways: &[Way], thousandths: u32, b: usize, blocks: usize) -> Option<u32>
    requires ways { All (HasNumbers blocks) ways.now }
    requires few { length ways.now ≤ MOST_WAYS }
    requires factor { thousandths ≤ MOST_FACTOR }
    requires block { b < blocks }
    ensures { result ≡ first_best (worths_by ways.now thousandths b) }
{
    let best = best_worth(ways, thousandths, b, blocks);
    if best > 0 {
        first_worth(ways, thousandths, b, blocks, best)
    } else {
        None
    }
}

// The first of these ways by which block b is worth so much, by its place among them.
fn first_worth(ways: &[Way], thousandths: u32, b: usize, blocks: usize, worth: i128) -> Option<u32>
    requires ways { All (HasNumbers blocks) ways.now }
    requires few { length ways.now ≤ MOST_WAYS }
    requires factor { thousandths ≤ MOST_FACTOR }
    requires block { b < blocks }
    ensures { result ≡ position (λ w. int_eq w worth) (worths_by ways.now thousandths b) }
{
    for i in 0..ways.len() {
        if ways[i].worth(thousandths, b) == worth {
            return Some(i as u32);
        }
    }
    None
}
