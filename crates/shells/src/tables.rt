//! The lists of a table of prices, in either of its forms, and what a block is worth by them.

ghost use Rattle.std.specs.Prelude.{◌≡◌, ◌<◌, ◌≤◌, ◌<ℤ◌, ◌≤ℤ◌, ◌↔◌, pos, IsTrue, All, Any, MatchBool};
ghost use Rattle.certificate_file.specs.ReadBack.{IsPrice};
ghost use Rattle.shells.specs.Prices.{AreListed, price_of, priced_count, revenues_at, way_at, way_count, worth_at, worth_by_way};
ghost use Rattle.shells.specs.Shown.{shown_table};

use crate::amounts::{left_of, less};
use crate::most_ways::MOST_WAYS;
use crate::ways::{Way, best_way, best_worth, have_numbers, is_some_negative, worth_one_way};
use check_pit::Price;
use fixed_worth::{MOST_FACTOR, Micros};

/// What blocks earn and what is charged for them.
#[derive(Drop)]
pub(crate) enum Table {
    /// The revenue of each block, and its cost.
    Plain {
        revenue: Vec<Micros>,
        cost: Vec<Micros>,
    },
    /// The ways to treat blocks, and what it costs to mine each.
    Treated {
        ways: Vec<Way>,
        mining: Vec<Micros>,
    },
}

impl Table {
    // How many blocks there are.
    pub(crate) fn len(&self) -> usize
        ensures { result ≡ priced_count (shown_table self.now) }
    {
        match self {
            Table::Plain { revenue, .. } => revenue.len(),
            Table::Treated { mining, .. } => mining.len(),
        }
    }

    // Whether all lists have equally many numbers, and there are neither too few ways nor too many.
    pub(crate) fn are_listed(&self) -> bool
        ensures { IsTrue result ↔ AreListed (shown_table self.now) }
    {
        match self {
            Table::Plain { revenue, cost } => cost.len() == revenue.len(),
            Table::Treated { ways, mining } => {
                !ways.is_empty() && ways.len() <= MOST_WAYS && have_numbers(ways, mining.len())
            }
        }
    }

    // Whether a revenue of block b is negative.
    pub(crate) fn is_negative(&self, b: usize) -> bool
        requires listed { AreListed (shown_table self.now) }
        requires block { b < priced_count (shown_table self.now) }
        ensures { MatchBool result
            (Any (λ r. r <ℤ pos 0) (revenues_at (shown_table self.now) b))
            (All (λ r. pos 0 ≤ℤ r) (revenues_at (shown_table self.now) b)) }
    {
        match self {
            Table::Plain { revenue, .. } => revenue[b].get() < 0,
            Table::Treated { ways, mining } => is_some_negative(ways, b, mining.len()),
        }
    }

    // The price that certificates at so many thousandths name.
    pub(crate) fn price_at(&self, thousandths: u32) -> Price
        requires { thousandths ≤ MOST_FACTOR }
        ensures is { result ≡ price_of (shown_table self.now) thousandths }
        ensures bound { IsPrice result }
    {
        match self {
            Table::Plain { .. } => Price::Factor(thousandths),
            Table::Treated { .. } => Price::Mill(thousandths),
        }
    }

    // What block b is worth, in billionths.
    pub(crate) fn worth(&self, b: usize, thousandths: u32) -> i128
        requires listed { AreListed (shown_table self.now) }
        requires block { b < priced_count (shown_table self.now) }
        requires factor { thousandths ≤ MOST_FACTOR }
        ensures { result ≡ worth_at (shown_table self.now) thousandths b }
    {
        match self {
            Table::Plain { revenue, cost } => left_of(revenue[b], cost[b], thousandths),
            Table::Treated { ways, mining } => {
                less(best_worth(ways, thousandths, b, mining.len()), mining[b])
            }
        }
    }

    // How many ways there are to treat a block.
    pub(crate) fn way_count(&self) -> usize
        requires { AreListed (shown_table self.now) }
        ensures is { result ≡ way_count (shown_table self.now) }
        ensures few { result ≤ MOST_WAYS }
    {
        match self {
            Table::Plain { .. } => 0,
            Table::Treated { ways, .. } => ways.len(),
        }
    }

    // What block b is worth by a way, in billionths.
    pub(crate) fn worth_by(&self, b: usize, way: usize, thousandths: u32) -> i128
        requires listed { AreListed (shown_table self.now) }
        requires block { b < priced_count (shown_table self.now) }
        requires factor { thousandths ≤ MOST_FACTOR }
        ensures { result ≡ worth_by_way (shown_table self.now) thousandths way b }
    {
        match self {
            Table::Plain { revenue, cost } => left_of(revenue[b], cost[b], thousandths),
            Table::Treated { ways, mining } => {
                let worth = worth_one_way(ways, way, thousandths, b, mining.len());
                less(worth, mining[b])
            }
        }
    }

    // Which way block b goes, if there are ways and one is worth more than waste.
    pub(crate) fn way_of(&self, b: usize, thousandths: u32) -> Option<u32>
        requires listed { AreListed (shown_table self.now) }
        requires block { b < priced_count (shown_table self.now) }
        requires factor { thousandths ≤ MOST_FACTOR }
        ensures { result ≡ way_at (shown_table self.now) thousandths b }
    {
        match self {
            Table::Plain { .. } => None,
            Table::Treated { ways, mining } => best_way(ways, thousandths, b, mining.len()),
        }
    }
}
