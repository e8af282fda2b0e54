//! An amount in millionths, as files and the command line give it: read from a decimal and rounded to the nearest, or
//! refused, and printed as a decimal again.

ghost use Rattle.std.specs.Prelude.{◌≡◌, ℤ, ◌≤◌, ◌^◌, SomeIff, Some, unsigned_abs};
ghost use Rattle.fixed_worth.specs.Decimal.{decimal_of};
ghost use Rattle.fixed_worth.specs.Printed.{amount_text};

use crate::decimals::decimal;
use crate::numerals::NumberFault;
use crate::printing::write_amount;
use std::fmt;
use std::marker::Model;

/// An amount in millionths of a unit, of at most a million million units (10^18 millionths) either way.
///
/// Sums of amounts are [`MicrosTotal`](crate::MicrosTotal) or [`Nanos`](crate::Nanos), which hold more. It prints as a
/// decimal with at most six places, `0.5` for 500,000.
#[derive(Clone, Copy, Debug, PartialEq, Eq, PartialOrd, Ord)]
pub struct Micros {
    millionths: i64,
}

impl Model for Micros {
    ghost Value = { ℤ };

    ghost view = { λ s. s.millionths };

    ghost invariant = { λ s. unsigned_abs s.millionths ≤ 10 ^ 18 };

    ghost inverse = { λ z. record { millionths = z } };
}

impl Micros {
    /// The amount of so many millionths, or `None` where that is more than 10^18 either way.
    pub fn new(millionths: i64) -> Option<Micros>
        ensures { SomeIff result (unsigned_abs millionths ≤ 10 ^ 18) millionths }
    {
        if millionths.unsigned_abs() <= 1_000_000_000_000_000_000 {
            Some(Micros { millionths })
        } else {
            None
        }
    }

    // The amount of so many millionths.
    pub(crate) fn of(millionths: i64) -> Micros
        requires { unsigned_abs millionths ≤ 10 ^ 18 }
        ensures { result ≡ millionths }
    {
        Micros { millionths }
    }

    /// Reads an amount such as `12`, `-0.5`, `+.5`, `5.` or `1.25e-3`, to the nearest millionth, and away from zero
    /// from the middle between two.
    ///
    /// `NotANumber` unless the text is an optional sign, digits with at most one point among them, and perhaps `e` or
    /// `E` with a whole exponent; then `TooLong` at more than 36 digits, or an exponent beyond 40 either way; then
    /// `TooLarge` where the rounded amount is more than 10^18 millionths either way.
    pub fn from_text(text: &[u8]) -> Result<Micros, NumberFault>
        ensures { result ≡ decimal_of text.now }
    {
        let millionths = decimal(text)?;
        Ok(Micros { millionths })
    }

    /// How many millionths the amount is.
    pub fn get(self) -> i64
        ensures value { result ≡ self }
        ensures bound { unsigned_abs result ≤ 10 ^ 18 }
    {
        self.millionths
    }
}

impl fmt::Display for Micros {
    ghost output = { λ m. Some (amount_text 6 m) };

    fn fmt<W: fmt::Write>(&self, f: &mut fmt::Formatter<W>) -> fmt::Result {
        write_amount(f, i128::from(self.millionths), 6)
    }
}
