//! Reads the whole number with which a text begins, in one pass over its bytes, and gives what is left after its
//! field. Only numbers of at most nineteen digits are read; for other fields there is no answer.

ghost use Rattle.std.specs.Prelude.{◌≡◌, ◌<◌, ◌≤◌, ◌^◌, ℕ, List, Ok, IfSome, IsTrue, length, take, drop, slice_index_or};
ghost use Rattle.std.specs.List.{list_all};
ghost use Rattle.fixed_worth.specs.Front.{BeginsWithField};
ghost use Rattle.fixed_worth.specs.Numeral.{is_digit, value_of, whole_of};
ghost use Rattle.fixed_worth.specs.Text.{is_separator};

use crate::eight_bytes::{WINDOW, digits_in_front, value_in_front};
use crate::field_reader::is_separator;
use crate::line_reader::after_first_line;
use crate::numerals::is_digit_byte;

// The value of the digits that come first among so many bytes, and how many they are.
#[inline(always)]
fn digits_among(text: &[u8], most: usize) -> (u64, usize)
    requires within { most ≤ length text.now }
    requires few { most ≤ 19 }
    ensures within { result.1 ≤ most }
    ensures digits { IsTrue (list_all is_digit (take result.1 text.now)) }
    ensures value { result.0 ≡ value_of (take result.1 text.now) }
    ensures small { result.0 < 10 ^ result.1 }
{
    let mut value: u64 = 0;
    let mut width = 0;
    while width < most && is_digit_byte(text[width]) {
        value = value * 10 + u64::from(text[width] - b'0');
        width += 1;
    }
    (value, width)
}

// The value of the digits that come first, and how many they are: at most nineteen, so that no sum overflows.
#[inline(always)]
pub(crate) fn leading_digits(text: &[u8]) -> (u64, usize)
    ensures within { result.1 ≤ length text.now }
    ensures few { result.1 ≤ 19 }
    ensures digits { IsTrue (list_all is_digit (take result.1 text.now)) }
    ensures value { result.0 ≡ value_of (take result.1 text.now) }
    ensures small { result.0 < 10 ^ result.1 }
{
    if text.len() < WINDOW {
        return digits_among(text, text.len());
    }
    let width = digits_in_front(text);
    if width == 0 {
        return (0, 0);
    }
    if width == WINDOW && text.len() > WINDOW && is_digit_byte(text[WINDOW]) {
        return digits_among(text, text.len().min(19));
    }
    (value_in_front(text, width), width)
}

// What is left after a field, where this text follows it: nothing where the text is empty, and where it begins with a
// separator what comes after that. None where it begins with another byte, since then the field goes on.
#[inline(always)]
pub(crate) fn after_field(text: &[u8]) -> Option<&[u8]>
    ensures rest { IfSome result (λ rest. rest.now ≡ drop 1 text.now) }
    ensures ends { IfSome result (λ rest. 0 < length text.now
        → IsTrue (is_separator (slice_index_or text.now 0 0))) }
{
    if text.is_empty() {
        return Some(text);
    }
    if is_separator(text[0]) {
        Some(after_first_line(text))
    } else {
        None
    }
}

// A number that stands first in a text, and what is left after its field.
#[derive(Clone, Copy)]
pub(crate) struct FirstNumber<'a> {
    pub value: u64,
    pub rest: &'a [u8],
}

// The number that stands first in a text, where its field is at most nineteen digits. Of another field, and where the
// text begins with a separator, there is none.
#[inline(always)]
pub(crate) fn first_number(text: &[u8]) -> Option<FirstNumber<'_>>
    ensures { IfSome result (λ first. (field : List ℕ)
        × BeginsWithField text.now field first.rest.now × (whole_of field ≡ Ok first.value)) }
{
    let (value, width) = leading_digits(text);
    if width == 0 {
        return None;
    }
    let (_, past) = text.split_at(width);
    let rest = after_field(past)?;
    Some(FirstNumber { value, rest })
}
