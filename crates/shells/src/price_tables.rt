//! What a block is worth at a factor of the price, and which way it is treated. Lists of different lengths and negative
//! revenues are no table.

ghost use Rattle.std.specs.Prelude.{◌≡◌, ◌≢◌, ◌<◌, ◌≤◌, ◌≤ℤ◌, ℕ, pos, All, IfOk, MatchOption, MatchResult};
ghost use Rattle.certificate_file.specs.ReadBack.{IsPrice};
ghost use Rattle.shells.specs.Prices.{AreListed, plain_prices, treated_prices, priced_count, price_of, revenues_at, way_at, way_count, worth_at, worth_by_way, worths_at, IsTable, IsFirstNegative, PricesFaultStands};
ghost use Rattle.shells.specs.Shown.{shown_table};

use crate::factor::Factor;
use crate::most_ways::MOST_WAYS;
use crate::prices_fault::PricesFault;
use crate::tables::Table;
use crate::ways::Way;
use check_pit::Price;
use fixed_worth::{MOST_BLOCKS, MOST_FACTOR, Micros};
use rayon::prelude::*;
use std::alloc::{AllocError, Global};
use std::marker::Model;
use std::thread::Threads;

/// What blocks earn and what is charged for them: the revenue and the cost of each; or, where a block goes one of
/// several ways or to waste, whichever is worth most, its revenue and its processing by each way and what it costs to
/// mine it. No revenue is negative.
#[derive(Drop)]
pub struct Prices {
    table: Table,
}

impl Model for Prices {
    ghost use Rattle.shells.specs.Prices.{PricesView, IsTable};
    ghost use Rattle.shells.specs.Shown.{shown_table};

    ghost Value = { PricesView };

    ghost view = { λ p. shown_table p.table };

    ghost invariant = { λ p. IsTable (shown_table p.table) };
}

// The first block with a negative revenue.
fn first_negative(table: &Table) -> Option<u32>
    requires listed { AreListed (shown_table table.now) }
    requires few { priced_count (shown_table table.now) ≤ MOST_BLOCKS }
    ensures { MatchOption result
        ((b : ℕ) → b < priced_count (shown_table table.now)
        → All (λ r. pos 0 ≤ℤ r) (revenues_at (shown_table table.now) b))
        (IsFirstNegative (shown_table table.now)) }
{
    for b in 0..table.len() {
        if table.is_negative(b) {
            return Some(b as u32);
        }
    }
    None
}

// The prices of a table.
fn prices_of(table: Table) -> Result<Prices, PricesFault>
    ensures { MatchResult result
        (λ p. p ≡ shown_table table)
        (PricesFaultStands (shown_table table)) }
{
    if !table.are_listed() || table.len() > MOST_BLOCKS as usize {
        return Err(PricesFault::WrongLength);
    }
    match first_negative(&table) {
        Some(b) => Err(PricesFault::NegativeRevenue(b)),
        None => Ok(Prices { table }),
    }
}

impl Prices {
    /// The prices of blocks with these revenues and these costs, block by block.
    ///
    /// # Errors
    /// In this order: `WrongLength` where there are more or fewer costs than revenues, or more than
    /// 2^24 of them; `NegativeRevenue` with the first block whose revenue is negative.
    pub fn new(revenue: Vec<Micros>, cost: Vec<Micros>) -> Result<Prices, PricesFault>
        ensures { MatchResult result
            (λ p. p ≡ plain_prices revenue.items cost.items)
            (PricesFaultStands (plain_prices revenue.items cost.items)) }
    {
        prices_of(Table::Plain { revenue, cost })
    }

    /// The prices of blocks that are treated in one of these ways or go to waste, whichever is worth most. By a way a
    /// block earns that way's revenue and is charged for that way's processing; as waste it earns nothing; for mining
    /// it is charged wherever it goes.
    ///
    /// # Errors
    /// In this order: `WrongLength` where a list has more or fewer numbers than that of mining, where this has more
    /// than 2^24, or where there is no way or there are more than 8; `NegativeRevenue` with the first block that has a
    /// negative revenue by any way.
    pub fn ways(ways: Vec<Way>, mining: Vec<Micros>) -> Result<Prices, PricesFault>
        ensures { MatchResult result
            (λ p. p ≡ treated_prices ways.items mining.items)
            (PricesFaultStands (treated_prices ways.items mining.items)) }
    {
        prices_of(Table::Treated { ways, mining })
    }

    /// How many blocks there are.
    pub fn len(&self) -> u32
        ensures is { result ≡ priced_count self.now }
        ensures table { IsTable self.now }
    {
        self.table.len() as u32
    }

    /// The price that certificates over this table name at a factor: one of a mill where they are treated.
    pub fn price_at(&self, factor: Factor) -> Price
        ensures is { result ≡ price_of self.now factor }
        ensures bound { IsPrice result }
    {
        self.table.price_at(factor.get())
    }

    /// The factor that a certificate's price names over this table: none where it is a price of another kind of model.
    pub fn factor_of(&self, price: Price) -> Option<Factor>
        ensures { MatchOption result ((k : ℕ) → k ≤ MOST_FACTOR
            → price ≢ price_of self.now k)
            (λ factor. price ≡ price_of self.now factor) }
    {
        match (&self.table, price) {
            (Table::Plain { .. }, Price::Factor(thousandths)) => Factor::new(thousandths),
            (Table::Treated { .. }, Price::Mill(thousandths)) => Factor::new(thousandths),
            _ => None,
        }
    }

    /// What block b is worth at a factor, in billionths: the factor times its revenue, less its cost. Where there are
    /// ways: the greatest of zero and, over the ways, the factor times its revenue less its processing; less its
    /// mining.
    pub fn worth(&self, b: u32, factor: Factor) -> i128
        requires { b < priced_count self.now }
        ensures { result ≡ worth_at self.now factor b }
    {
        self.worth_of(b as usize, factor)
    }

    // What the block at this place is worth.
    fn worth_of(&self, b: usize, factor: Factor) -> i128
        requires { b < priced_count self.now }
        ensures { result ≡ worth_at self.now factor b }
    {
        self.table.worth(b, factor.get())
    }

    /// How many ways there are to treat a block, beside waste: none where blocks have costs.
    pub fn way_count(&self) -> u32
        ensures is { result ≡ way_count self.now }
        ensures few { result ≤ MOST_WAYS }
    {
        self.table.way_count() as u32
    }

    /// What block b is worth by the way at this place in the order of the ways, at a factor and in billionths; past the
    /// last of them as waste. Where there are no ways, what it is worth.
    pub fn worth_by(&self, b: u32, way: u32, factor: Factor) -> i128
        requires { b < priced_count self.now }
        ensures { result ≡ worth_by_way self.now factor way b }
    {
        self.table.worth_by(b as usize, way as usize, factor.get())
    }

    /// Which way block b goes at a factor, by its place in the order of the ways: the first of those by which it is
    /// worth most. None where it goes to waste, since no way is worth more than zero, and none where there are no ways.
    pub fn way_of(&self, b: u32, factor: Factor) -> Option<u32>
        requires { b < priced_count self.now }
        ensures { result ≡ way_at self.now factor b }
    {
        self.table.way_of(b as usize, factor.get())
    }

    /// What each block is worth at a factor, in billionths and in the order of the blocks: for each
    /// what `worth` gives. Made by the threads of `rayon`.
    ///
    /// # Errors
    /// Memory for the list was refused.
    pub fn worths_at(
        &self,
        rt: &(impl Threads + Sync),
        alloc: Global,
        factor: Factor,
    ) -> Result<Vec<i128>, AllocError>
        ensures { IfOk result (λ v. v.items ≡ worths_at self.now factor) }
    {
        let blocks = self.table.len();
        (0..blocks)
            .into_par_iter()
            .map(
                |b: usize| -> i128
                    requires { b < priced_count self.now }
                    ensures { result ≡ worth_at self.entry.now factor b }
                { self.worth_of(b, factor) },
            )
            .collect(rt, alloc)
    }
}
