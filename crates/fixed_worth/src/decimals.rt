//! Reads a decimal, with or without a point and an exponent, as a whole number of millionths, rounded to the nearest,
//! or says why the text is none.

ghost use Rattle.std.specs.Prelude.{◌≡◌, ◌+◌, ◌<◌, ◌^◌, ◌&&◌, ◌||◌, ◌++◌, not, cond, nat_lt, length, SomeIff, IsTrue, position, Err};
ghost use Rattle.std.specs.List.{list_all, position_or_len};
ghost use Rattle.fixed_worth.specs.Numeral.{is_digit, is_number, value_of, is_minus};
ghost use Rattle.fixed_worth.specs.Decimal.{is_mark, is_point, whole_part, fraction_part, exponent_of, exponent_digits, has_mark, decimal_of, most, rounded_of};

use crate::line_reader::after_first_line;
use crate::numerals::{NumberFault, are_digits, has_minus, value, with_digit, without_sign};
use crate::rounding::rounded;

// The digits of a numeral before its point, after it, and of its exponent.
#[derive(Clone, Copy)]
struct Parts<'a> {
    whole: &'a [u8],
    fraction: &'a [u8],
    exponent: &'a [u8],
    // Whether the exponent is negative.
    down: bool,
}

#[tactic(auto, unfolding(crate::specs::Decimal::is_mark))]
fn is_mark_byte(b: u8) -> bool
    ensures { result ≡ is_mark b }
{
    b == b'e' || b == b'E'
}

#[tactic(auto, unfolding(crate::specs::Decimal::is_point))]
fn is_point_byte(b: u8) -> bool
    ensures { result ≡ is_point b }
{
    b == b'.'
}

fn first_mark(text: &[u8]) -> Option<usize>
    ensures { result ≡ position is_mark text.now }
{
    text.iter().position(|b| is_mark_byte(*b))
}

fn first_point(text: &[u8]) -> Option<usize>
    ensures { result ≡ position is_point text.now }
{
    text.iter().position(|b| is_point_byte(*b))
}

#[tactic(auto, using(crate::proofs::Cuts::unwrap_position))]
fn mark_length(text: &[u8]) -> usize
    ensures { result ≡ position_or_len is_mark text.now }
{
    first_mark(text).unwrap_or(text.len())
}

#[tactic(auto, using(crate::proofs::Cuts::unwrap_position))]
fn point_length(text: &[u8]) -> usize
    ensures { result ≡ position_or_len is_point text.now }
{
    first_point(text).unwrap_or(text.len())
}

// The parts of a numeral, and whether it has the mark of an exponent, which may then not be empty.
fn cut(text: &[u8]) -> (Parts<'_>, bool)
    ensures whole { result.0.whole.now ≡ whole_part text.now }
    ensures fraction { result.0.fraction.now ≡ fraction_part text.now }
    ensures exponent { result.0.exponent.now ≡ exponent_digits text.now }
    ensures down { result.0.down ≡ is_minus (exponent_of text.now) }
    ensures marked { result.1 ≡ has_mark text.now }
{
    let end = mark_length(text);
    let (front, marked) = text.split_at(end);
    let exponent = after_first_line(marked);
    let mantissa = without_sign(front);
    let (whole, pointed) = mantissa.split_at(point_length(mantissa));
    let fraction = after_first_line(pointed);
    let parts = Parts {
        whole,
        fraction,
        exponent: without_sign(exponent),
        down: has_minus(exponent),
    };
    (parts, end < text.len())
}

// The value of the digits of two slices together.
fn mantissa(whole: &[u8], fraction: &[u8]) -> Option<u128>
    requires first { IsTrue (list_all is_digit whole.now) }
    requires second { IsTrue (list_all is_digit fraction.now) }
    ensures { SomeIff result
        (value_of (whole.now ++ fraction.now) < 2 ^ 128) (value_of (whole.now ++ fraction.now)) }
{
    let mut all = value(whole)?;
    for b in fraction {
        all = with_digit(all, *b - b'0')?;
    }
    Some(all)
}

// Whether the parts are those of a numeral.
fn are_parts(parts: Parts<'_>, marked: bool) -> bool
    ensures { result ≡ (is_number (parts.entry.whole.now ++ parts.entry.fraction.now)
        && (not marked || nat_lt 0 (length parts.entry.exponent.now))
        && list_all is_digit parts.entry.exponent.now) }
{
    if parts.whole.is_empty() && parts.fraction.is_empty() {
        return false;
    }
    if !are_digits(parts.whole) || !are_digits(parts.fraction) {
        return false;
    }
    if marked && parts.exponent.is_empty() {
        return false;
    }
    are_digits(parts.exponent)
}

// The value of the parts in millionths.
fn magnitude(parts: Parts<'_>) -> Result<u128, NumberFault>
    requires digits { IsTrue (list_all is_digit (parts.whole.now ++ parts.fraction.now)) }
    requires exponent { IsTrue (list_all is_digit parts.exponent.now) }
    ensures { result ≡ cond (nat_lt 36 (length (parts.entry.whole.now ++ parts.entry.fraction.now))
        || nat_lt 40 (value_of parts.entry.exponent.now)) (Err NumberFault.TooLong)
        (most (10 ^ 18) (rounded_of (value_of (parts.entry.whole.now ++ parts.entry.fraction.now))
        (cond parts.entry.down 6 (6 + value_of parts.entry.exponent.now))
        (cond parts.entry.down (length parts.entry.fraction.now + value_of parts.entry.exponent.now)
        (length parts.entry.fraction.now)))) }
{
    if parts.whole.len() > 36 || parts.fraction.len() > 36 - parts.whole.len() {
        return Err(NumberFault::TooLong);
    }
    let shift = value(parts.exponent)
        .filter(|n| *n <= 40)
        .ok_or(NumberFault::TooLong)? as u32;
    let m = mantissa(parts.whole, parts.fraction).ok_or(NumberFault::TooLong)?;
    let places = parts.fraction.len() as u32;
    let up = if parts.down { 6 } else { 6 + shift };
    let down = if parts.down { places + shift } else { places };
    rounded(m, up, down).ok_or(NumberFault::TooLarge)
}

// A numeral with a point and an exponent, in millionths.
pub(crate) fn decimal(text: &[u8]) -> Result<i64, NumberFault>
    ensures { result ≡ decimal_of text.now }
{
    let (parts, marked) = cut(text);
    if !are_parts(parts, marked) {
        return Err(NumberFault::NotANumber);
    }
    let n = magnitude(parts)? as i64;
    Ok(if has_minus(text) { -n } else { n })
}
