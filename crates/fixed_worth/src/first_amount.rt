//! Reads the amount with which a text begins, in one pass over its bytes, and gives what is left after its field.
//! Only short decimals without an exponent are read; for other fields there is no answer.

ghost use Rattle.std.specs.Prelude.{◌≡◌, ℕ, ◌+◌, ◌-◌, ◌*◌, ◌<◌, ◌≤◌, ◌^◌, List, cond, pos, neg_ℤ, Ok, IfSome};
ghost use Rattle.fixed_worth.specs.Decimal.{decimal_of};
ghost use Rattle.fixed_worth.specs.Front.{BeginsWithField, BeginsWithFraction};

use crate::first_number::{after_field, leading_digits};
use crate::millionths::Micros;
use crate::numerals::{has_minus, without_sign};

// The digits after a point that comes first, if it does: their value and how many they are; and what is left.
#[derive(Clone, Copy)]
struct Fraction<'a> {
    value: u64,
    places: usize,
    rest: &'a [u8],
}

#[inline(always)]
fn leading_fraction(text: &[u8]) -> Fraction<'_>
    ensures { BeginsWithFraction text.now result.value result.places result.rest.now }
{
    match text {
        [b, digits @ ..] if *b == b'.' => {
            let (value, places) = leading_digits(digits);
            let (_, rest) = digits.split_at(places);
            Fraction {
                value,
                places,
                rest,
            }
        }
        _ => Fraction {
            value: 0,
            places: 0,
            rest: text,
        },
    }
}

// How many millionths one is that stands so many places after the point.
#[inline(always)]
fn unit_of_place(places: usize) -> u64
    requires { places ≤ 6 }
    ensures { result ≡ 10 ^ (6 - places) }
{
    match places {
        0 => 1_000_000,
        1 => 100_000,
        2 => 10_000,
        3 => 1_000,
        4 => 100,
        5 => 10,
        _ => 1,
    }
}

// The millionths of a number before the point and of one after it.
#[inline(always)]
fn millionths(whole: u64, fraction: u64, places: usize) -> u64
    requires whole { whole < 10 ^ 12 }
    requires places { places ≤ 6 }
    requires fraction { fraction < 10 ^ places }
    ensures value { result ≡ whole * 10 ^ 6 + fraction * 10 ^ (6 - places) }
    ensures bound { result ≤ 10 ^ 18 }
{
    whole * 1_000_000 + fraction * unit_of_place(places)
}

#[inline(always)]
fn with_sign(minus: bool, size: u64) -> Micros
    requires { size ≤ 10 ^ 18 }
    ensures { result ≡ cond minus (neg_ℤ (pos size)) (pos size) }
{
    if minus {
        Micros::of(-(size as i64))
    } else {
        Micros::of(size as i64)
    }
}

// An amount that stands first in a text, and what is left after its field.
#[derive(Clone, Copy)]
pub(crate) struct FirstAmount<'a> {
    pub amount: Micros,
    pub rest: &'a [u8],
}

// The amount that stands first in a text, where its field is a decimal with at most twelve digits before its point and
// six after it, and without an exponent. Of another field, and where the text begins with a separator, there is none.
#[inline(always)]
pub(crate) fn first_amount(text: &[u8]) -> Option<FirstAmount<'_>>
    ensures { IfSome result (λ first. (field : List ℕ)
        × BeginsWithField text.now field first.rest.now × (decimal_of field ≡ Ok first.amount)) }
{
    let unsigned = without_sign(text);
    let (whole, width) = leading_digits(unsigned);
    let (_, past) = unsigned.split_at(width);
    let fraction = leading_fraction(past);
    if width > 12 || fraction.places > 6 || width + fraction.places == 0 {
        return None;
    }
    let rest = after_field(fraction.rest)?;
    let size = millionths(whole, fraction.value, fraction.places);
    Some(FirstAmount {
        amount: with_sign(has_minus(text), size),
        rest,
    })
}
