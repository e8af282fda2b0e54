//! Reads the arrays of periods: weights, columns of resources, and rows of capacities or of prices. Of a value that is
//! no such array it gives nothing.

ghost use Rattle.std.specs.Prelude.{◌≡◌, ◌≤◌, IfOk, IfSome, length, option_map};
ghost use Rattle.toml.specs.View.{view, array_view};
ghost use Rattle.periods_file.specs.Values.{all_rows, are_falling, columns_of, number_row, row_value_within, rows_of, weights_of};

use std::alloc::{AllocError, Global};
use toml::Value;
use toml::value::Array;
use toml_values::number_within;

// The most that a period weighs, in millionths.
const MOST_WEIGHT: u64 = 1_000_000;

// The most columns of a block model.
pub(crate) const MOST_COLUMN: u64 = 65_535;

// The whole numbers from 0 to `most` that the values are, or `None` where one is something else.
fn numbers_among(alloc: Global, values: &Array, most: u64) -> Result<Option<Vec<u64>>, AllocError>
    ensures { IfOk result
        (λ o. option_map (λ v. v.items) o ≡ all_rows (number_row most) (array_view values.now)) }
{
    let mut numbers = Vec::new(alloc);
    for value in values {
        match number_within(value, most) {
            Some(number) => numbers.push(number)?,
            None => return Ok(None),
        }
    }
    Ok(Some(numbers))
}

// The columns that the values are, or `None` where one is something else.
pub(crate) fn columns_among(alloc: Global, values: &Array) -> Result<Option<Vec<u32>>, AllocError>
    ensures { IfOk result
        (λ o. option_map (λ v. v.items) o ≡ all_rows (number_row 65535) (array_view values.now)) }
{
    let mut columns = Vec::new(alloc);
    for value in values {
        match number_within(value, MOST_COLUMN) {
            Some(column) => columns.push(column as u32)?,
            None => return Ok(None),
        }
    }
    Ok(Some(columns))
}

// Whether no number is above the one before it.
fn is_falling(numbers: &[u64]) -> bool
    ensures { result ≡ are_falling numbers.now }
{
    let mut rest = numbers;
    while let Some((first, after)) = rest.split_first() {
        if let Some(second) = after.first() {
            if *second > *first {
                return false;
            }
        }
        rest = after;
    }
    true
}

// The weights that a value is: 1 to 1,000 of them, none above the one before it.
pub(crate) fn weights_in(alloc: Global, value: &Value) -> Result<Option<Vec<u64>>, AllocError>
    ensures value { IfOk result (λ o. option_map (λ v. v.items) o ≡ weights_of (view value.now)) }
    ensures few { IfOk result (λ o. IfSome o (λ v. length v.items ≤ 1000)) }
{
    match value.as_array() {
        Some(values) => match numbers_among(alloc, values, MOST_WEIGHT)? {
            Some(numbers) => {
                if 1 <= numbers.len() && numbers.len() <= 1_000 && is_falling(numbers.as_slice()) {
                    Ok(Some(numbers))
                } else {
                    Ok(None)
                }
            }
            None => Ok(None),
        },
        None => Ok(None),
    }
}

// The columns that a value is: at most 8.
pub(crate) fn columns_in(alloc: Global, value: &Value) -> Result<Option<Vec<u32>>, AllocError>
    ensures value { IfOk result (λ o. option_map (λ v. v.items) o ≡ columns_of (view value.now)) }
    ensures few { IfOk result (λ o. IfSome o (λ v. length v.items ≤ 8)) }
{
    match value.as_array() {
        Some(values) => match columns_among(alloc, values)? {
            Some(columns) => {
                if columns.len() <= 8 {
                    Ok(Some(columns))
                } else {
                    Ok(None)
                }
            }
            None => Ok(None),
        },
        None => Ok(None),
    }
}

// The row of so many numbers that a value is.
fn row_in(
    alloc: Global,
    value: &Value,
    most: u64,
    width: usize,
) -> Result<Option<Vec<u64>>, AllocError>
    ensures { IfOk result
        (λ o. option_map (λ v. v.items) o ≡ row_value_within most width (view value.now)) }
{
    match value.as_array() {
        Some(values) => match numbers_among(alloc, values, most)? {
            Some(numbers) => {
                if numbers.len() == width {
                    Ok(Some(numbers))
                } else {
                    Ok(None)
                }
            }
            None => Ok(None),
        },
        None => Ok(None),
    }
}

// The rows that the values are, one after another, or `None` where one is something else.
fn rows_among(
    alloc: Global,
    values: &Array,
    most: u64,
    width: usize,
) -> Result<Option<Vec<u64>>, AllocError>
    ensures { IfOk result
        (λ o. option_map (λ v. v.items) o
        ≡ all_rows (row_value_within most width) (array_view values.now)) }
{
    let mut numbers = Vec::new(alloc);
    for value in values {
        match row_in(alloc, value, most, width)? {
            Some(row) => numbers.extend_from_slice(row.as_slice())?,
            None => return Ok(None),
        }
    }
    Ok(Some(numbers))
}

// So many rows of so many numbers that a value is, one after another.
pub(crate) fn rows_in(
    alloc: Global,
    value: &Value,
    most: u64,
    rows: usize,
    width: usize,
) -> Result<Option<Vec<u64>>, AllocError>
    requires rows { rows ≤ 8 }
    requires width { width ≤ 1000 }
    ensures { IfOk result
        (λ o. option_map (λ v. v.items) o ≡ rows_of most rows width (view value.now)) }
{
    match value.as_array() {
        Some(values) => match rows_among(alloc, values, most, width)? {
            Some(numbers) => {
                if numbers.len() == rows * width {
                    Ok(Some(numbers))
                } else {
                    Ok(None)
                }
            }
            None => Ok(None),
        },
        None => Ok(None),
    }
}
