//! Gives what each block of a mine is worth in billionths, at a factor or at the price that a certificate names,
//! whether its texts give values or prices.

ghost use Rattle.std.specs.Prelude.{◌≡◌, ◌≢◌, ◌<◌, ◌≤◌, ℕ, IfOk, MatchOption};
ghost use Rattle.fixed_worth.specs.declared.limits.TheConstants.{MOST_FACTOR};
ghost use Rattle.certificate_file.specs.ReadBack.{IsPrice};
ghost use Rattle.mine_inputs.specs.Ways.{way_valued, ways_valued, worth_valued};
ghost use Rattle.mine_inputs.specs.Worths.{blocks_valued, nanos_at, price_at, factor_at};

use certificate_file::Price;
use fixed_worth::{MOST_BLOCKS, MOST_FACTOR};
use shells::{Factor, Prices};
use std::alloc::{AllocError, Global};
use std::thread::Threads;
use upit_file::Upit;

/// What the blocks of a mine are worth.
#[derive(Drop)]
pub enum Worths {
    /// Each block has a value.
    Values(Upit),
    /// Each block has a revenue and charges, which give what it is worth at a factor.
    Prices(Prices),
}

impl Worths {
    /// How many blocks there are.
    pub fn len(&self) -> u32
        ensures count { result ≡ blocks_valued self.now }
        ensures most { result ≤ MOST_BLOCKS }
    {
        match self {
            Worths::Values(upit) => upit.len(),
            Worths::Prices(prices) => prices.len(),
        }
    }

    /// The price that a certificate names. Values have one alone, whatever the factor.
    pub fn price_at(&self, factor: Factor) -> Price
        ensures is { result ≡ price_at self.now factor }
        ensures bound { IsPrice result }
    {
        match self {
            Worths::Values(_) => Price::Objective,
            Worths::Prices(prices) => prices.price_at(factor),
        }
    }

    /// The factor at which blocks are worth what a certificate's price says; none where that is a price of another kind
    /// of model. Values have one price, and are the same at every factor.
    pub fn factor_of(&self, price: Price) -> Option<Factor>
        ensures { MatchOption result ((k : ℕ) → k ≤ MOST_FACTOR → price ≢ price_at self.now k)
            (λ factor. (price ≡ price_at self.now factor) × (factor ≡ factor_at price)) }
    {
        match self {
            Worths::Values(_) => match price {
                Price::Objective => Factor::new(0),
                Price::Factor(_) | Price::Mill(_) => None,
            },
            Worths::Prices(prices) => prices.factor_of(price),
        }
    }

    /// How many ways there are to treat a block, beside waste: none where blocks have values, or costs alone.
    pub fn way_count(&self) -> u32
        ensures is { result ≡ ways_valued self.now }
        ensures few { result ≤ 8 }
    {
        match self {
            Worths::Values(_) => 0,
            Worths::Prices(prices) => prices.way_count(),
        }
    }

    /// What block b is worth by a way, in billionths: ways are counted from 0, and their number is that of waste. Where
    /// there are no ways, what it is worth.
    pub fn worth_by(&self, b: u32, way: u32, factor: Factor) -> i128
        requires { b < blocks_valued self.now }
        ensures { result ≡ worth_valued self.now factor way b }
    {
        match self {
            Worths::Values(upit) => 1000 * i128::from(upit.value(b).get()),
            Worths::Prices(prices) => prices.worth_by(b, way, factor),
        }
    }

    /// The way by which block b is worth most, the first such; that of waste where none is worth more than zero.
    pub fn way_of(&self, b: u32, factor: Factor) -> u32
        requires { b < blocks_valued self.now }
        ensures { result ≡ way_valued self.now factor b }
    {
        match self {
            Worths::Values(_) => 0,
            Worths::Prices(prices) => match prices.way_of(b, factor) {
                Some(way) => way,
                None => prices.way_count(),
            },
        }
    }

    /// What each block is worth in billionths. Values are the same at every factor.
    ///
    /// # Errors
    /// Memory was refused.
    pub fn nanos_at<R: Threads + Sync>(
        &self,
        rt: &R,
        alloc: Global,
        factor: Factor,
    ) -> Result<Vec<i128>, AllocError>
        ensures { IfOk result (λ v. v.items ≡ nanos_at self.now factor) }
    {
        match self {
            Worths::Values(upit) => {
                let mut nanos: Vec<i128> = Vec::new(alloc);
                for b in 0..upit.len() {
                    nanos.push(1000 * i128::from(upit.value(b).get()))?;
                }
                Ok(nanos)
            }
            Worths::Prices(prices) => prices.worths_at(rt, alloc, factor),
        }
    }
}
