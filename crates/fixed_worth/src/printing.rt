//! Prints amounts in billionths or millionths as decimals: a minus where it is needed, the whole part, and the
//! fraction without trailing zeros.

ghost use Rattle.std.specs.Prelude.{◌≡◌, ◌<◌, ◌≤◌, ◌^◌, Some};
ghost use Rattle.std.specs.Fmt.{DisplaysOnOk, sign_text};
ghost use Rattle.std.specs.Int.{is_negative};
ghost use Rattle.fixed_worth.specs.Printed.{fixed_width, without_trailing_zeros, fraction_text, amount_text};

use crate::rounding::power_of_ten;
use std::fmt;

/// An amount in billionths, such as the worth of a block or of a pit.
///
/// It prints as a decimal with at most nine places, `-1.5` for -1,500,000,000.
#[derive(Clone, Copy, Debug, PartialEq, Eq, PartialOrd, Ord)]
pub struct Nanos(pub i128);

/// A sum in millionths, which may be larger than one entry of a file may be.
///
/// It prints as a decimal with at most six places.
#[derive(Clone, Copy, Debug, PartialEq, Eq, PartialOrd, Ord)]
pub struct MicrosTotal(pub i128);

/// A fraction of so many places without its trailing zeros, and how many places it then has: 15 and 2 for 1,500 with 4
/// places, which is 0.1500.
pub fn trimmed_fraction(fraction: u64, places: usize) -> (u64, usize)
    requires some { 0 < fraction }
    requires below_one { fraction < 10 ^ places }
    ensures same { without_trailing_zeros (fixed_width places fraction)
        ≡ fixed_width result.1 result.0 }
    ensures shown { (0 < result.1) × (result.1 ≤ places) }
    ensures below_one { result.0 < 10 ^ result.1 }
    ensures at_most { result.0 ≤ fraction }
{
    let mut digits = fraction;
    let mut width = places;
    while digits % 10 == 0 {
        digits /= 10;
        width -= 1;
    }
    (digits, width)
}

fn write_fraction<W: fmt::Write>(
    f: &mut fmt::Formatter<W>,
    fraction: u64,
    places: usize,
) -> fmt::Result
    requires { fraction < 10 ^ places }
    ensures { DisplaysOnOk W.write_str_gives f.old result
        (Some (fraction_text places fraction)) f.new }
{
    if fraction == 0 {
        return Ok(());
    }
    let (digits, width) = trimmed_fraction(fraction, places);
    write!(f, ".{digits:0width$}")
}

fn write_sign<W: fmt::Write>(f: &mut fmt::Formatter<W>, amount: i128) -> fmt::Result
    ensures { DisplaysOnOk W.write_str_gives f.old result
        (Some (sign_text (is_negative amount))) f.new }
{
    if amount < 0 { f.write_str("-") } else { Ok(()) }
}

// An amount of which 10^places make one.
#[tactic(auto, unfolding(crate::specs::Printed::amount_text))]
pub(crate) fn write_amount<W: fmt::Write>(
    f: &mut fmt::Formatter<W>,
    amount: i128,
    places: u32,
) -> fmt::Result
    requires { places ≤ 9 }
    ensures { DisplaysOnOk W.write_str_gives f.old result (Some (amount_text places amount)) f.new }
{
    let unit = power_of_ten(places);
    let size = amount.unsigned_abs();
    let whole = size / unit;
    let fraction = (size % unit) as u64;
    write_sign(f, amount)?;
    write!(f, "{whole}")?;
    write_fraction(f, fraction, places as usize)
}

impl fmt::Display for Nanos {
    ghost output = { λ x. Some (amount_text 9 x.0) };

    fn fmt<W: fmt::Write>(&self, f: &mut fmt::Formatter<W>) -> fmt::Result {
        write_amount(f, self.0, 9)
    }
}

impl fmt::Display for MicrosTotal {
    ghost output = { λ x. Some (amount_text 6 x.0) };

    fn fmt<W: fmt::Write>(&self, f: &mut fmt::Formatter<W>) -> fmt::Result {
        write_amount(f, self.0, 6)
    }
}
