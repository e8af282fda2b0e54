//! Computes what each node of the expanded mine is worth: what its block leaves in its period above the prices of what
//! it uses, less what it leaves in the next one.

ghost use Rattle.std.specs.Prelude.{◌≡◌, ◌<◌, ◌+◌, ◌*◌, ◌/◌, ◌%◌, pos, ◌+ℤ◌, ◌-ℤ◌, ◌*ℤ◌, length, IfOk, IfSome, OnOk, ◌++◌, ◌∷◌, [], All};
ghost use Rattle.expanded_mine.specs.Lists.{AreNodeWorths};
ghost use Rattle.expanded_mine.specs.Nodes.{IsWayOf, charge_by, left_by, left_or_none, most_left, node_worth, price_by};
ghost use Rattle.expanded_mine.specs.Waiting.{is_early, withheld};

use crate::expand_fault::ExpandFault;
use crate::waits::Waits;
use fixed_worth::MOST_BLOCKS;
use production_figures::Figures;
use std::alloc::Global;

// A sum with a product, where both fit.
pub(crate) fn with_product(sum: i128, amount: i128, price: u64) -> Option<i128>
    ensures { IfSome result (λ more. more ≡ sum +ℤ (amount *ℤ pos price)) }
{
    match amount.checked_mul(price as i128) {
        Some(product) => sum.checked_add(product),
        None => None,
    }
}

// The price of resource r in period t, row by row for each resource; 0 where none is listed.
pub(crate) fn price_at(figures: &Figures, prices: &[u64], r: u32, t: u32) -> u64
    ensures { result ≡ price_by figures.now prices.now r t }
{
    let place = r as usize * figures.periods() as usize + t as usize;
    if place < prices.len() {
        prices[place]
    } else {
        0
    }
}

// What block b is charged in period t.
fn charge_at(figures: &Figures, prices: &[u64], b: u32, t: u32) -> Option<i128>
    requires block { b < length figures.now.worths }
    requires period { t < length figures.now.weights }
    ensures { IfSome result (λ sum. sum ≡ charge_by figures.now prices.now b t) }
{
    let mut sum: i128 = 0;
    for r in 0..figures.resources() {
        let amount = figures.used(r, b) as i128;
        match with_product(sum, amount, price_at(figures, prices, r, t)) {
            Some(more) => sum = more,
            None => return None,
        }
    }
    Some(sum)
}

// A worth at a weight, less a charge.
fn less_charge(worth: i128, weight: u64, charge: i128) -> Option<i128>
    ensures { IfSome result (λ left. left ≡ (worth *ℤ pos weight) -ℤ charge) }
{
    match worth.checked_mul(weight as i128) {
        Some(value) => value.checked_sub(charge),
        None => None,
    }
}

// What block b leaves in period t above what it is charged.
fn left_at(figures: &Figures, prices: &[u64], b: u32, t: u32) -> Option<i128>
    requires block { b < length figures.now.worths }
    requires period { t < length figures.now.weights }
    ensures { IfSome result (λ left. left ≡ left_by figures.now prices.now b t) }
{
    match charge_at(figures, prices, b, t) {
        Some(charge) => less_charge(figures.worth(b), figures.weight(t), charge),
        None => None,
    }
}

// What block b leaves in period t at most, whichever way it goes.
fn most_at(figures: &Figures, others: &[Figures], prices: &[u64], b: u32, t: u32) -> Option<i128>
    requires block { b < length figures.now.worths }
    requires period { t < length figures.now.weights }
    requires ways { All (IsWayOf figures.now) others.now }
    ensures { IfSome result (λ left. left ≡ most_left figures.now others.now prices.now b t) }
{
    let mut most = match left_at(figures, prices, b, t) {
        Some(left) => left,
        None => return None,
    };
    for d in 0..others.len() {
        match left_at(&others[d], prices, b, t) {
            Some(left) => most = most.max(left),
            None => return None,
        }
    }
    Some(most)
}

// What a block leaves at most in a period, by any way; nothing from the end of the last period on.
fn left_or_none_at(
    figures: &Figures,
    others: &[Figures],
    prices: &[u64],
    b: u32,
    t: u32,
) -> Option<i128>
    requires block { b < length figures.now.worths }
    requires ways { All (IsWayOf figures.now) others.now }
    ensures { IfSome result (λ left. left ≡ left_or_none figures.now others.now prices.now b t) }
{
    if t < figures.periods() {
        most_at(figures, others, prices, b, t)
    } else {
        Some(0)
    }
}

// A difference, where it fits.
fn difference(first: i128, second: i128) -> Option<i128>
    ensures { IfSome result (λ less. less ≡ first -ℤ second) }
{
    first.checked_sub(second)
}

// What the node of block b and period t is worth.
fn worth_of_node(
    figures: &Figures,
    others: &[Figures],
    prices: &[u64],
    b: u32,
    t: u32,
) -> Option<i128>
    requires block { b < length figures.now.worths }
    requires period { t < length figures.now.weights }
    requires ways { All (IsWayOf figures.now) others.now }
    ensures { IfSome result (λ worth. worth ≡ node_worth figures.now others.now prices.now b t) }
{
    let now = match most_at(figures, others, prices, b, t) {
        Some(now) => now,
        None => return None,
    };
    // proof: there are few periods
    let _few = figures.periods();
    match left_or_none_at(figures, others, prices, b, t + 1) {
        Some(next) => difference(now, next),
        None => None,
    }
}

// What a node is worth less whose block waits for another, and isn't dug as early as that.
const WITHHELD: i128 = 1_000_000_000_000_000_000_000_000_000_000;

// Whether a node's block waits for another, so that it isn't dug by the end of a period as early as the node's.
fn is_early(waits: &Waits, node: u32) -> bool
    requires { 0 < waits.now.pairs.blocks }
    ensures { result ≡ is_early waits.now.pairs.blocks waits.now.lag waits.now.pairs.pairs node }
{
    let blocks = waits.pairs.len();
    if node / blocks >= waits.lag {
        return false;
    }
    waits.pairs.above(node % blocks).len() > 0
}

// A node's worth, less what is withheld of one that is early.
fn less_withheld(worth: i128, early: bool) -> Option<i128>
    ensures { IfSome result (λ less. less ≡ worth -ℤ withheld early) }
{
    if early {
        difference(worth, WITHHELD)
    } else {
        Some(worth)
    }
}

// What node i is worth, period by period.
fn worth_at(
    figures: &Figures,
    others: &[Figures],
    prices: &[u64],
    waits: &Waits,
    i: u32,
) -> Option<i128>
    requires node { i < length figures.now.weights * length figures.now.worths }
    requires same { waits.now.pairs.blocks ≡ length figures.now.worths }
    requires ways { All (IsWayOf figures.now) others.now }
    ensures { IfSome result (λ worth. worth ≡ node_worth figures.now others.now prices.now
        (i % length figures.now.worths) (i / length figures.now.worths)
        -ℤ withheld (is_early (length figures.now.worths) waits.now.lag waits.now.pairs.pairs i)) }
{
    let blocks = figures.blocks();
    match worth_of_node(figures, others, prices, i % blocks, i / blocks) {
        Some(worth) => less_withheld(worth, is_early(waits, i)),
        None => None,
    }
}

// Adds a node's worth to those of the nodes before.
fn push_worth(worths: &mut Vec<i128>, worth: i128) -> Result<(), ExpandFault>
    ensures { OnOk result (worths.new.items ≡ worths.old.items ++ worth ∷ []) }
{
    worths.push(worth).map_err(|_| ExpandFault::NoMemory)
}

/// What each node of the expanded mine is worth, period by period, in 10^-15 of the unit of the worths: what its block
/// leaves in its period above the prices of what it uses, less what it leaves in the next one. Where blocks may go
/// other ways, which have figures of their own, it is what a block leaves at most. A node of a block that waits for
/// another is worth 10^15 units less in the periods in which it is too early.
///
/// # Errors
/// `TooManyNodes` before all else; `TooLarge` where a number doesn't fit; `NoMemory`.
pub fn node_worths_of(
    alloc: Global,
    figures: &Figures,
    others: &[Figures],
    prices: &[u64],
    waits: &Waits,
) -> Result<Vec<i128>, ExpandFault>
    requires same { waits.now.pairs.blocks ≡ length figures.now.worths }
    requires ways { All (IsWayOf figures.now) others.now }
    ensures { IfOk result
        (λ v. AreNodeWorths figures.now others.now prices.now waits.now.lag waits.now.pairs.pairs
        v.items) }
{
    let blocks = figures.blocks();
    let nodes = figures.periods() as u64 * blocks as u64;
    if nodes > MOST_BLOCKS as u64 {
        return Err(ExpandFault::TooManyNodes);
    }
    let mut worths: Vec<i128> = Vec::new(alloc);
    for i in 0..nodes as u32 {
        match worth_at(figures, others, prices, waits, i) {
            Some(worth) => push_worth(&mut worths, worth)?,
            None => return Err(ExpandFault::TooLarge),
        }
    }
    Ok(worths)
}
