//! Why lists are no table of prices: their lengths differ, there are no ways or too many, or a block's revenue is
//! negative.

ghost use Rattle.std.specs.Prelude.{Some};
ghost use Rattle.shells.specs.FaultText.{prices_fault_text};

use std::error::Error;
use std::fmt;

/// Why lists are no table of prices.
#[derive(Clone, Copy, Debug, PartialEq, Eq)]
pub enum PricesFault {
    /// A list has more or fewer numbers than another, or more than 2^24; or there are no ways, or more than 8.
    WrongLength,
    /// The first block with a negative revenue.
    NegativeRevenue(u32),
}

impl fmt::Display for PricesFault {
    ghost output = { λ fault. Some (prices_fault_text fault) };

    fn fmt<W: fmt::Write>(&self, f: &mut fmt::Formatter<W>) -> fmt::Result {
        match self {
            PricesFault::WrongLength => write!(f, "WrongLength"),
            PricesFault::NegativeRevenue(block) => write!(f, "NegativeRevenue({block})"),
        }
    }
}

impl Error for PricesFault {}
