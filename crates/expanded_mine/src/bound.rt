//! The bound on the worth of every schedule that a richest pit of the expanded mine gives.

ghost use Rattle.std.specs.Prelude.{◌≡◌, ◌<◌, ℕ, Bool, List, pos, ◌+ℤ◌, ◌*ℤ◌, length, All, IfSome};
ghost use Rattle.closure_net.specs.Mine.{IsRichest, worth_of};
ghost use Rattle.prec_file.specs.Rests.{has_pair};
ghost use Rattle.schedules.specs.Expanded.{price_of_capacities, sum_below};
ghost use Rattle.production_figures.specs.Figures.{FiguresView, production_of, capacity_by};
ghost use Rattle.expanded_mine.specs.Bounds.{IsTreatedBound, treated_by};
ghost use Rattle.expanded_mine.specs.Nodes.{IsWayOf, most_left, price_by};
ghost use Rattle.expanded_mine.specs.Waiting.{treated_mine_of};

use crate::node_worths::{price_at, with_product};
use production_figures::Figures;

// What the capacities of a resource come to at their prices.
fn price_of_row(figures: &Figures, prices: &[u64], r: u32) -> Option<i128>
    requires { r < figures.now.resources }
    ensures { IfSome result (λ sum. sum ≡ sum_below (λ t. capacity_by figures.now r t *ℤ pos
        (price_by figures.now prices.now r t)) (length figures.now.weights)) }
{
    let mut sum: i128 = 0;
    for t in 0..figures.periods() {
        let price = price_at(figures, prices, r, t);
        match with_product(sum, figures.capacity(r, t), price) {
            Some(more) => sum = more,
            None => return None,
        }
    }
    Some(sum)
}

// A sum, where it fits.
fn sum_of(first: i128, second: i128) -> Option<i128>
    ensures { IfSome result (λ sum. sum ≡ first +ℤ second) }
{
    first.checked_add(second)
}

// What all capacities come to at their prices.
fn price_of_all(figures: &Figures, prices: &[u64]) -> Option<i128>
    ensures { IfSome result
        (λ sum. sum ≡ sum_below (λ r. sum_below (λ t. capacity_by figures.now r t *ℤ pos
        (price_by figures.now prices.now r t)) (length figures.now.weights))
        figures.now.resources) }
{
    let mut sum: i128 = 0;
    for r in 0..figures.resources() {
        let Some(row) = price_of_row(figures, prices, r) else {
            return None;
        };
        match sum_of(sum, row) {
            Some(more) => sum = more,
            None => return None,
        }
    }
    Some(sum)
}

/// The bound that a pit of the expanded mine gives which is worth so many billionths of millionths: this with all
/// capacities at their prices, or `None` where it leaves 128 bits. If no pit of the expanded mine is worth more, no
/// feasible schedule is that keeps its waits, whichever ways its blocks go.
pub fn bound_by(figures: &Figures, prices: &[u64], worth: i128) -> Option<i128>
    ensures bound { IfSome result
        (λ bound. (others : List FiguresView) (pairs waits : List (ℕ × ℕ)) (lag : ℕ) (chosen : ℕ
        → Bool)
        → All (IsWayOf figures.now) others
        → IsRichest
        (treated_mine_of (treated_by pairs figures.now others)
        (most_left figures.now others prices.now) lag waits) chosen
        → worth
        ≡ worth_of
        (treated_mine_of (treated_by pairs figures.now others)
        (most_left figures.now others prices.now) lag waits) chosen
        → IsTreatedBound (treated_by pairs figures.now others) lag (has_pair waits) bound) }
    ensures exact { IfSome result
        (λ bound. (pairs : List (ℕ × ℕ)) → bound ≡ worth +ℤ price_of_capacities
        (production_of pairs figures.now) (price_by figures.now prices.now)) }
{
    let Some(capacities) = price_of_all(figures, prices) else {
        return None;
    };
    match sum_of(worth, capacities) {
        Some(bound) => Some(bound),
        None => None,
    }
}
