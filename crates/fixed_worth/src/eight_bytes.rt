//! Reads the digits with which a text begins eight bytes at a time: how many they are by a vector of bytes, and their
//! value by three products of a word.

ghost use Rattle.std.specs.Prelude.{◌≡◌, ℕ, ◌+◌, ◌*◌, ◌<◌, ◌≤◌, ◌^◌, IsTrue, length, take, map, get_or};
ghost use Rattle.std.specs.List.{list_all};
ghost use Rattle.std.specs.Simd.Lanes.{mask_l};
ghost use Rattle.fixed_worth.specs.Numeral.{is_digit, is_other, value_of};

use std::simd::prelude::*;

// How many bytes are looked at at once.
pub(crate) const WINDOW: usize = 8;

// Eight bytes of `0`.
const ZEROS: u64 = 0x3030_3030_3030_3030;

// Which of eight bytes are no digits, a bit for each.
#[inline(always)]
fn others_among(bytes: u8x8) -> u64
    ensures { result ≡ mask_l (map is_other bytes) }
{
    (bytes - u8x8::splat(b'0'))
        .simd_ge(u8x8::splat(10))
        .to_bitmask()
}

// How many digits come first, of those among the first eight bytes.
#[inline(always)]
pub(crate) fn digits_in_front(text: &[u8]) -> usize
    requires { 8 ≤ length text.now }
    ensures within { result ≤ 8 }
    ensures digits { IsTrue (list_all is_digit (take result text.now)) }
{
    let others = others_among(u8x8::from_slice(text));
    if others == 0 {
        WINDOW
    } else {
        others.trailing_zeros() as usize
    }
}

// Eight bytes as a word, the first in the lowest place.
#[inline(always)]
fn word_of(bytes: u8x8) -> u64
    ensures { result
        ≡ get_or bytes 0 0 + get_or bytes 1 0 * 2 ^ 8 + get_or bytes 2 0 * 2 ^ 16 + get_or bytes 3 0
        * 2 ^ 24
        + get_or bytes 4 0 * 2 ^ 32 + get_or bytes 5 0 * 2 ^ 40 + get_or bytes 6 0 * 2 ^ 48 + get_or
        bytes 7 0 * 2 ^ 56 }
{
    u64x1::from_le_bytes(bytes).to_array()[0]
}

// The value of eight digits, each a number in a byte of a word, the first digit in the lowest: neighbours are joined to
// four numbers of two digits, these to two of four, and these to one.
#[inline(always)]
fn joined_digits(word: u64) -> u64
    ensures { (a b c d e f g h : ℕ) → a ≤ 9 → b ≤ 9 → c ≤ 9 → d ≤ 9 → e ≤ 9 → f ≤ 9 → g ≤ 9 → h ≤ 9
        → word
        ≡ a + b * 2 ^ 8 + c * 2 ^ 16 + d * 2 ^ 24 + e * 2 ^ 32 + f * 2 ^ 40 + g * 2 ^ 48 + h * 2
        ^ 56
        → result
        ≡ a * 10 ^ 7 + b * 10 ^ 6 + c * 10 ^ 5 + d * 10 ^ 4 + e * 10 ^ 3 + f * 10 ^ 2 + g * 10 +
        h }
{
    let twos = (word.wrapping_mul(10 * 0x100 + 1) >> 8) & 0x00ff_00ff_00ff_00ff;
    let fours = (twos.wrapping_mul(100 * 0x1_0000 + 1) >> 16) & 0x0000_ffff_0000_ffff;
    fours.wrapping_mul(10_000 * 0x1_0000_0000 + 1) >> 32
}

// The value of the first digits, at least one and at most eight: those after them are shifted out of the word, so that
// zeros come before them.
#[inline(always)]
pub(crate) fn value_in_front(text: &[u8], count: usize) -> u64
    requires long { 8 ≤ length text.now }
    requires some { 0 < count }
    requires few { count ≤ 8 }
    requires digits { IsTrue (list_all is_digit (take count text.now)) }
    ensures { result ≡ value_of (take count text.now) }
{
    let word = word_of(u8x8::from_slice(text));
    joined_digits(word.wrapping_sub(ZEROS) << (64 - 8 * count))
}
