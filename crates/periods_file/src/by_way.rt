//! Reads the columns of resources: of each one for all ways to treat a block, or one for each way.

ghost use Rattle.std.specs.Prelude.{◌≡◌, ◌≤◌, ◌*◌, IfOk, IfSome, Some, length, option_map};
ghost use Rattle.toml.specs.View.{view, array_view};
ghost use Rattle.periods_file.specs.Values.{all_rows};
ghost use Rattle.periods_file.specs.ByWay.{resource_row, resources_of, shared_of, shared_row, width_of};

use crate::arrays::{MOST_COLUMN, columns_among};
use std::alloc::{AllocError, Global};
use toml::Value;
use toml::value::Array;
use toml_values::number_within;

/// How many columns a resource has by so many ways: one for each, and one where there are none.
pub fn width_of(ways: u32) -> u32
    ensures { result ≡ width_of ways }
{
    if ways == 0 { 1 } else { ways }
}

// The columns of a resource by each way that a value is.
fn columns_by_way(alloc: Global, value: &Value, ways: u32) -> Result<Option<Vec<u32>>, AllocError>
    ensures { IfOk result (λ o. option_map (λ v. v.items) o ≡ resource_row ways (view value.now)) }
{
    if let Some(column) = number_within(value, MOST_COLUMN) {
        let all = vec![in alloc; column as u32; width_of(ways) as usize]?;
        return Ok(Some(all));
    }
    match value.as_array() {
        Some(values) => match columns_among(alloc, values)? {
            Some(columns) => {
                if columns.len() == ways as usize && columns.len() > 0 {
                    Ok(Some(columns))
                } else {
                    Ok(None)
                }
            }
            None => Ok(None),
        },
        None => Ok(None),
    }
}

// The columns by each way that the values are, one after another, or `None` where one is something else.
fn resources_among(alloc: Global, values: &Array, ways: u32) -> Result<Option<Vec<u32>>, AllocError>
    ensures { IfOk result
        (λ o. option_map (λ v. v.items) o ≡ all_rows (resource_row ways) (array_view values.now)) }
{
    let mut columns = Vec::new(alloc);
    for value in values {
        match columns_by_way(alloc, value, ways)? {
            Some(row) => columns.extend_from_slice(row.as_slice())?,
            None => return Ok(None),
        }
    }
    Ok(Some(columns))
}

// Whether each of the values is one column for all ways.
fn shared_among(alloc: Global, values: &Array) -> Result<Vec<bool>, AllocError>
    ensures { IfOk result (λ v. Some v.items ≡ all_rows shared_row (array_view values.now)) }
{
    let mut shared = Vec::new(alloc);
    for value in values {
        let whole = number_within(value, MOST_COLUMN).is_some();
        shared.push(whole)?;
    }
    Ok(shared)
}

// The columns of so many resources by each way that a value is.
pub(crate) fn resources_in(
    alloc: Global,
    value: &Value,
    ways: u32,
    rows: usize,
) -> Result<Option<Vec<u32>>, AllocError>
    requires { rows ≤ 8 }
    ensures value { IfOk result
        (λ o. option_map (λ v. v.items) o ≡ resources_of ways rows (view value.now)) }
    ensures size { IfOk result (λ o. IfSome o (λ v. length v.items ≡ rows * width_of ways)) }
{
    match value.as_array() {
        Some(values) => match resources_among(alloc, values, ways)? {
            Some(columns) => {
                if columns.len() == rows * width_of(ways) as usize {
                    Ok(Some(columns))
                } else {
                    Ok(None)
                }
            }
            None => Ok(None),
        },
        None => Ok(None),
    }
}

// Whether each of at most 8 resources that a value is has one column for all ways.
pub(crate) fn shared_in(alloc: Global, value: &Value) -> Result<Option<Vec<bool>>, AllocError>
    ensures value { IfOk result (λ o. option_map (λ v. v.items) o ≡ shared_of (view value.now)) }
    ensures few { IfOk result (λ o. IfSome o (λ v. length v.items ≤ 8)) }
{
    match value.as_array() {
        Some(values) => {
            let shared = shared_among(alloc, values)?;
            if shared.len() <= 8 {
                Ok(Some(shared))
            } else {
                Ok(None)
            }
        }
        None => Ok(None),
    }
}
