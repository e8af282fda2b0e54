//! Reads whole numbers: without a sign, with an optional sign, or in their one plain spelling. Otherwise says why a
//! text is no such number.

ghost use Rattle.std.specs.Prelude.{◌≡◌, ◌+◌, ◌*◌, ◌<◌, ◌≤◌, ◌^◌, SomeIff, IsTrue, length, pos, neg_ℤ};
ghost use Rattle.std.specs.List.{list_all};
ghost use Rattle.fixed_worth.specs.Numeral.{is_digit, value_of, digits_of, below, whole_of, is_minus, unsigned_of, signed_of, begins_above_zero, is_plain, plain_of};

/// Why a text is not a number of the wanted kind.
#[derive(Clone, Copy, Debug, PartialEq, Eq)]
pub enum NumberFault {
    /// The text does not have the form of a number.
    NotANumber,
    /// The form is right, and there are more digits than are read.
    TooLong,
    /// The number is written rightly, and its value is out of range.
    TooLarge,
}

pub(crate) fn is_digit_byte(b: u8) -> bool
    ensures { result ≡ is_digit b }
{
    b >= b'0' && b <= b'9'
}

pub(crate) fn are_digits(text: &[u8]) -> bool
    ensures { result ≡ list_all is_digit text.now }
{
    text.iter().all(|b| is_digit_byte(*b))
}

// The value with one more digit, where it fits.
pub(crate) fn with_digit(value: u128, digit: u8) -> Option<u128>
    ensures { SomeIff result (value * 10 + digit < 2 ^ 128) (value * 10 + digit) }
{
    value.checked_mul(10)?.checked_add(digit as u128)
}

// The value of a text of digits that is too short for a sum to overflow, as nearly all numbers of a file are: each byte
// is looked at once.
fn short_value(text: &[u8]) -> Option<u64>
    requires { length text.now ≤ 19 }
    ensures { SomeIff result (IsTrue (list_all is_digit text.now)) (value_of text.now) }
{
    let mut all: u64 = 0;
    for b in text {
        if !is_digit_byte(*b) {
            return None;
        }
        all = all * 10 + u64::from(*b - b'0');
    }
    Some(all)
}

// The value of digits, where it fits.
pub(crate) fn value(text: &[u8]) -> Option<u128>
    requires { IsTrue (list_all is_digit text.now) }
    ensures { SomeIff result (value_of text.now < 2 ^ 128) (value_of text.now) }
{
    if text.len() <= 19 {
        short_value(text).map(u128::from)
    } else {
        long_value(text)
    }
}

// The value of any number of digits, where it fits.
fn long_value(text: &[u8]) -> Option<u128>
    requires { IsTrue (list_all is_digit text.now) }
    ensures { SomeIff result (value_of text.now < 2 ^ 128) (value_of text.now) }
{
    let mut all = 0;
    for b in text {
        all = with_digit(all, *b - b'0')?;
    }
    Some(all)
}

// A number below the limit.
pub(crate) fn number_below(text: &[u8], limit: u128) -> Result<u128, NumberFault>
    ensures { result ≡ below limit (digits_of text.now) }
{
    if text.is_empty() {
        return Err(NumberFault::NotANumber);
    }
    if text.len() <= 19 {
        return match short_value(text) {
            Some(n) if u128::from(n) < limit => Ok(u128::from(n)),
            Some(_) => Err(NumberFault::TooLarge),
            None => Err(NumberFault::NotANumber),
        };
    }
    if !are_digits(text) {
        return Err(NumberFault::NotANumber);
    }
    if text.len() > 39 {
        return Err(NumberFault::TooLong);
    }
    long_value(text)
        .filter(|n| *n < limit)
        .ok_or(NumberFault::TooLarge)
}

/// Reads a whole number without a sign, such as a block number or a count. Leading zeros are allowed.
///
/// `NotANumber` unless the text is digits, and at least one; then `TooLong` at more than 39 digits; then `TooLarge`
/// from 2^64 on.
#[tactic(auto, unfolding(crate::specs::Numeral::whole_of))]
pub fn whole(text: &[u8]) -> Result<u64, NumberFault>
    ensures { result ≡ whole_of text.now }
{
    let n = number_below(text, 1 << 64)?;
    Ok(n as u64)
}

pub(crate) fn has_minus(text: &[u8]) -> bool
    ensures { result ≡ is_minus text.now }
{
    match text {
        [] => false,
        [b, ..] => *b == b'-',
    }
}

pub(crate) fn without_sign(text: &[u8]) -> &[u8]
    ensures { result.now ≡ unsigned_of text.now }
{
    match text {
        [] => text,
        [b, rest @ ..] => { if *b == b'+' || *b == b'-' { rest } else { text } }
    }
}

fn negated(n: u128) -> i128
    requires { n ≤ 2 ^ 127 }
    ensures { result ≡ neg_ℤ (pos n) }
{
    if n == 1 << 127 {
        i128::MIN
    } else {
        -(n as i128)
    }
}

/// Reads a whole number with an optional sign, `+` or `-`. Leading zeros are allowed.
///
/// `NotANumber` unless digits, at least one, follow the sign; then `TooLong` at more than 39 digits; then `TooLarge`
/// outside -2^127 to 2^127 - 1.
#[tactic(auto, unfolding(crate::specs::Numeral::signed_of))]
pub fn signed_whole(text: &[u8]) -> Result<i128, NumberFault>
    ensures { result ≡ signed_of text.now }
{
    if has_minus(text) {
        let size = number_below(without_sign(text), (1 << 127) + 1)?;
        Ok(negated(size))
    } else {
        let size = number_below(without_sign(text), 1 << 127)?;
        Ok(size as i128)
    }
}

fn begins_above_zero(text: &[u8]) -> bool
    ensures { result ≡ begins_above_zero text.now }
{
    match text {
        [] => false,
        [b, ..] => *b > b'0' && *b <= b'9',
    }
}

#[tactic(auto, unfolding(crate::specs::Numeral::is_plain))]
fn is_plain(text: &[u8]) -> bool
    ensures { result ≡ is_plain text.now }
{
    match text {
        [] => false,
        [b] if *b == b'0' => true,
        [b, rest @ ..] => if *b == b'-' {
            begins_above_zero(rest)
        } else {
            begins_above_zero(text)
        },
    }
}

/// Reads a number that has one spelling only: `0`, or an optional `-` and digits of which the first is not `0`.
///
/// `NotANumber` at every other text, as at `-0`, `+5` and `05`; then `TooLong` at more than 39 digits; then `TooLarge`
/// outside -2^127 to 2^127 - 1.
#[tactic(auto, unfolding(crate::specs::Numeral::plain_of))]
pub fn plain_signed(text: &[u8]) -> Result<i128, NumberFault>
    ensures { result ≡ plain_of text.now }
{
    if is_plain(text) {
        signed_whole(text)
    } else {
        Err(NumberFault::NotANumber)
    }
}
