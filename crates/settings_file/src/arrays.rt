//! Reads the arrays of settings: the factors of a series, the offsets of a slope, and those of the slope of each
//! region. Of a value that is no such array it gives nothing.

ghost use Rattle.std.specs.Prelude.{◌≡◌, ◌≤◌, IfOk, IfSome, map, option_map};
ghost use Rattle.std.specs.List.{All};
ghost use Rattle.toml.specs.View.{view, array_view};
ghost use Rattle.toml_values.specs.Prelude.{whole_value_within};
ghost use Rattle.settings_file.specs.Values.{all_read, offset_of, are_ascending, factors_of, offsets_of, slopes_of, AreFactors};

use crate::values::{number_in_i32, number_within};
use fixed_worth::{MOST_FACTOR, MOST_FACTORS};
use std::alloc::{AllocError, Global};
use toml::Value;
use toml::value::Array;

// The whole numbers from 0 to `most` that the values are, or `None` where one is something else.
fn numbers_within(alloc: Global, values: &Array, most: u32) -> Result<Option<Vec<u32>>, AllocError>
    ensures value { IfOk result (λ o. option_map (λ v. v.items) o
        ≡ all_read (whole_value_within most) (array_view values.now)) }
    ensures bound { IfOk result (λ o. IfSome o (λ v. All (λ n. n ≤ most) v.items)) }
{
    let mut numbers = Vec::new(alloc);
    for value in values {
        match number_within(value, most) {
            Some(number) => numbers.push(number)?,
            None => return Ok(None),
        }
    }
    Ok(Some(numbers))
}

// Whether each number is above the one before it.
fn is_ascending(numbers: &[u32]) -> bool
    ensures { result ≡ are_ascending numbers.now }
{
    let mut rest = numbers;
    while let Some((first, after)) = rest.split_first() {
        if let Some(second) = after.first() {
            if *second <= *first {
                return false;
            }
        }
        rest = after;
    }
    true
}

// The factors that a value is: 1 to 64 of them, ascending, each from 0 to 10,000.
pub(crate) fn factors_in(alloc: Global, value: &Value) -> Result<Option<Vec<u32>>, AllocError>
    ensures value { IfOk result (λ o. option_map (λ v. v.items) o ≡ factors_of (view value.now)) }
    ensures form { IfOk result (λ o. IfSome o (λ v. AreFactors v.items)) }
{
    match value.as_array() {
        Some(values) => match numbers_within(alloc, values, MOST_FACTOR)? {
            Some(numbers) => {
                if 1 <= numbers.len()
                    && numbers.len() <= MOST_FACTORS
                    && is_ascending(numbers.as_slice())
                {
                    Ok(Some(numbers))
                } else {
                    Ok(None)
                }
            }
            None => Ok(None),
        },
        None => Ok(None),
    }
}

// The three whole numbers that a value is.
fn offset_in(value: &Value) -> Option<(i32, i32, i32)>
    ensures { result ≡ offset_of (view value.now) }
{
    match value.as_array() {
        Some(numbers) => {
            if numbers.len() != 3 {
                return None;
            }
            match (
                number_in_i32(&numbers[0]),
                number_in_i32(&numbers[1]),
                number_in_i32(&numbers[2]),
            ) {
                (Some(x), Some(y), Some(z)) => Some((x, y, z)),
                _ => None,
            }
        }
        None => None,
    }
}

// The offsets that the values are, or `None` where one is something else.
fn offsets_among(alloc: Global, values: &Array) -> Result<Option<Vec<(i32, i32, i32)>>, AllocError>
    ensures { IfOk result
        (λ o. option_map (λ v. v.items) o ≡ all_read offset_of (array_view values.now)) }
{
    let mut offsets = Vec::new(alloc);
    for value in values {
        match offset_in(value) {
            Some(offset) => offsets.push(offset)?,
            None => return Ok(None),
        }
    }
    Ok(Some(offsets))
}

// The offsets that a value is.
pub(crate) fn offsets_in(
    alloc: Global,
    value: &Value,
) -> Result<Option<Vec<(i32, i32, i32)>>, AllocError>
    ensures { IfOk result (λ o. option_map (λ v. v.items) o ≡ offsets_of (view value.now)) }
{
    match value.as_array() {
        Some(values) => offsets_among(alloc, values),
        None => Ok(None),
    }
}

// The lists of offsets that the values are, or `None` where one is something else.
fn slopes_among(
    alloc: Global,
    values: &Array,
) -> Result<Option<Vec<Vec<(i32, i32, i32)>>>, AllocError>
    ensures { IfOk result (λ o. option_map (λ v. map (λ w. w.items) v.items) o
        ≡ all_read offsets_of (array_view values.now)) }
{
    let mut slopes = Vec::new(alloc);
    for value in values {
        match offsets_in(alloc, value)? {
            Some(offsets) => slopes.push(offsets)?,
            None => return Ok(None),
        }
    }
    Ok(Some(slopes))
}

// The offsets of each region that a value is.
pub(crate) fn slopes_in(
    alloc: Global,
    value: &Value,
) -> Result<Option<Vec<Vec<(i32, i32, i32)>>>, AllocError>
    ensures { IfOk result (λ o. option_map (λ v. map (λ w. w.items) v.items) o
        ≡ slopes_of (view value.now)) }
{
    match value.as_array() {
        Some(values) => slopes_among(alloc, values),
        None => Ok(None),
    }
}
