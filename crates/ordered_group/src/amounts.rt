//! What can be asked of amounts of any kind: comparisons, positive and negative parts, the lesser of two, lists of
//! zeros, and sums that tell when they don't fit.

ghost use Rattle.std.specs.Prelude.{◌≡◌, ◌↔◌, IsTrue, IfOk, MatchOption, length, map, replicate};
ghost use Rattle.ordered_group.specs.Amount.{zero_amount, is_zero, minus, AtMost, FitsPair, positive, negative, lesser_amount};
ghost use Rattle.ordered_group.specs.Sums.{total, amount_at, SumFits, SumOverflows};

use crate::groups::OrderedGroup;
use std::alloc::{AllocError, Global};
use std::cmp::Ordering;

/// Whether a is at most b.
pub fn at_most<G: OrderedGroup>(a: G, b: G) -> bool
    ensures { IsTrue result ↔ AtMost (G.parts_of a) (G.parts_of b) }
{
    a.cmp(&b).is_le()
}

/// Whether a and b are the same amount.
pub fn same<G: OrderedGroup>(a: G, b: G) -> bool
    ensures { IsTrue result ↔ (G.parts_of a ≡ G.parts_of b) }
{
    a.cmp(&b).is_eq()
}

/// Whether the amount is zero.
pub fn is_zero<G: OrderedGroup>(amount: G) -> bool
    ensures { result ≡ is_zero (G.parts_of amount) }
{
    amount.cmp(&G::zero()).is_eq()
}

/// A list of so many zeros.
///
/// # Errors
/// Where memory is refused.
pub fn zeros<G: OrderedGroup>(alloc: Global, n: u32) -> Result<Vec<G>, AllocError>
    ensures { IfOk result (λ v. map G.parts_of v.items ≡ replicate n zero_amount) }
{
    let mut amounts = Vec::with_capacity(alloc, n as usize)?;
    // a clone of an amount isn't known to be the same, so each is made anew
    for _k in 0..n {
        amounts.push_reserved(G::zero());
    }
    Ok(amounts)
}

/// The amount where it is positive, and else zero.
pub fn positive_part<G: OrderedGroup>(worth: G) -> G
    ensures { G.parts_of result ≡ positive (G.parts_of worth) }
{
    let zero = G::zero();
    match worth.cmp(&zero) {
        Ordering::Less => zero,
        _ => worth,
    }
}

/// The opposite of the amount where that is positive, and else zero. `None` exactly where the
/// opposite doesn't fit.
pub fn negative_part<G: OrderedGroup>(worth: G) -> Option<G>
    ensures { let opposite = minus zero_amount (G.parts_of worth) in
        MatchOption result (¬ (FitsPair opposite))
        (λ r. FitsPair opposite × (G.parts_of r ≡ negative (G.parts_of worth))) }
{
    let opposite = G::zero().try_sub(worth)?;
    Some(positive_part(opposite))
}

/// The lesser of two amounts.
pub fn smaller<G: OrderedGroup>(a: G, b: G) -> G
    ensures { G.parts_of result ≡ lesser_amount (G.parts_of a) (G.parts_of b) }
{
    match a.cmp(&b) {
        Ordering::Greater => b,
        _ => a,
    }
}

/// The sum of the amounts, taken in their order, which is zero where there are none. `None` exactly
/// where the sum of the first few overflows, though a later one would bring it back.
pub fn try_sum<G: OrderedGroup>(amounts: &[G]) -> Option<G>
    ensures { let xs = map G.parts_of amounts.now in
        MatchOption result (SumOverflows (amount_at xs) (length xs))
        (λ r. SumFits (amount_at xs) (length xs)
        × (G.parts_of r ≡ total (amount_at xs) (length xs))) }
{
    let mut sum = G::zero();
    for x in amounts {
        sum = sum.try_add(*x)?;
    }
    Some(sum)
}
