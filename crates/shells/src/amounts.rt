//! So many thousandths of an amount, and what is left of a revenue after a charge.

ghost use Rattle.std.specs.Prelude.{◌≡◌, ◌≤◌, ◌^◌, ◌*◌, ◌+◌, pos, ◌*ℤ◌, ◌-ℤ◌, unsigned_abs};

use fixed_worth::{MOST_FACTOR, Micros};

// So many thousandths of an amount in millionths, in billionths.
fn thousandths_of(thousandths: u32, millionths: Micros) -> i128
    requires { thousandths ≤ MOST_FACTOR }
    ensures is { result ≡ pos thousandths *ℤ millionths }
    ensures bound { unsigned_abs result ≤ 10 ^ 22 }
{
    thousandths as i128 * millionths.get() as i128
}

// An amount in billionths less another one in millionths.
pub(crate) fn less(billionths: i128, millionths: Micros) -> i128
    requires { unsigned_abs billionths ≤ 2 * 10 ^ 22 }
    ensures is { result ≡ billionths -ℤ pos 1000 *ℤ millionths }
    ensures bound { unsigned_abs result ≤ unsigned_abs billionths + 10 ^ 22 }
{
    billionths - thousandths_of(1_000, millionths)
}

// What is left in billionths of so many thousandths of a revenue, less a charge.
pub(crate) fn left_of(revenue: Micros, charge: Micros, thousandths: u32) -> i128
    requires { thousandths ≤ MOST_FACTOR }
    ensures is { result ≡ pos thousandths *ℤ revenue -ℤ pos 1000 *ℤ charge }
    ensures bound { unsigned_abs result ≤ 2 * 10 ^ 22 }
{
    less(thousandths_of(thousandths, revenue), charge)
}
