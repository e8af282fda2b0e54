//! Prints a worth at a weight: billionths times millionths as a decimal, with a minus where it is needed, the whole
//! part, and the fraction without trailing zeros.

ghost use Rattle.std.specs.Prelude.{◌<◌, ◌^◌, Some};
ghost use Rattle.std.specs.Fmt.{DisplaysOnOk, sign_text};
ghost use Rattle.std.specs.Int.{is_negative};
ghost use Rattle.fixed_worth.specs.Printed.{fraction_text, amount_text};

use fixed_worth::trimmed_fraction;
use std::fmt;

/// A worth at the weight of a period, in 10^-15 of the unit of the worths.
///
/// It prints as a decimal with at most 15 places.
#[derive(Clone, Copy, Debug, PartialEq, Eq)]
pub struct Weighed(pub i128);

// What makes one.
const UNIT: u128 = 1_000_000_000_000_000;

#[tactic(auto, unfolding(fixed_worth::specs::Printed::fraction_text))]
fn write_fraction<W: fmt::Write>(f: &mut fmt::Formatter<W>, fraction: u64) -> fmt::Result
    requires { fraction < 10 ^ 15 }
    ensures { DisplaysOnOk W.write_str_gives f.old result (Some (fraction_text 15 fraction)) f.new }
{
    if fraction == 0 {
        return Ok(());
    }
    let (digits, width) = trimmed_fraction(fraction, 15);
    write!(f, ".{digits:0width$}")
}

fn write_sign<W: fmt::Write>(f: &mut fmt::Formatter<W>, amount: i128) -> fmt::Result
    ensures { DisplaysOnOk W.write_str_gives f.old result
        (Some (sign_text (is_negative amount))) f.new }
{
    if amount < 0 { f.write_str("-") } else { Ok(()) }
}

#[tactic(auto, unfolding(fixed_worth::specs::Printed::amount_text))]
fn write_weighed<W: fmt::Write>(f: &mut fmt::Formatter<W>, amount: i128) -> fmt::Result
    ensures { DisplaysOnOk W.write_str_gives f.old result (Some (amount_text 15 amount)) f.new }
{
    let size = amount.unsigned_abs();
    let whole = size / UNIT;
    let fraction = (size % UNIT) as u64;
    write_sign(f, amount)?;
    write!(f, "{whole}")?;
    write_fraction(f, fraction)
}

impl fmt::Display for Weighed {
    ghost output = { λ x. Some (amount_text 15 x.0) };

    fn fmt<W: fmt::Write>(&self, f: &mut fmt::Formatter<W>) -> fmt::Result {
        write_weighed(f, self.0)
    }
}
