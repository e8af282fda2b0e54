//! A factor of the price in thousandths: the share of the revenue that counts, made of a number
//! from 0 to 10,000 or refused.

ghost use Rattle.std.specs.Prelude.{◌≡◌, ◌≤◌, ℕ, SomeIff};
ghost use Rattle.fixed_worth.specs.declared.limits.TheConstants.{MOST_FACTOR};

use fixed_worth::MOST_FACTOR;
use std::marker::Model;

/// The share of the revenue that counts, in thousandths: 0 to 10,000.
#[derive(Clone, Copy, Debug, PartialEq, Eq)]
pub struct Factor {
    thousandths: u32,
}

impl Model for Factor {
    ghost Value = { ℕ };

    ghost view = { λ f. f.thousandths };

    ghost invariant = { λ f. f.thousandths ≤ MOST_FACTOR };

    ghost inverse = { λ k. record { thousandths = k } };
}

impl Factor {
    /// The factor of so many thousandths, or `None` where these are more than 10,000.
    pub fn new(thousandths: u32) -> Option<Factor>
        ensures { SomeIff result (thousandths ≤ MOST_FACTOR) thousandths }
    {
        if thousandths <= MOST_FACTOR {
            Some(Factor { thousandths })
        } else {
            None
        }
    }

    /// How many thousandths the factor is.
    pub fn get(self) -> u32
        ensures value { result ≡ self }
        ensures bound { result ≤ MOST_FACTOR }
    {
        self.thousandths
    }
}
