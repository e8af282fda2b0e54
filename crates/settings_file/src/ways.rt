//! Reads the ways to treat blocks that settings list: of each the column of what it earns and of what it costs.

ghost use Rattle.std.specs.Prelude.{◌≡◌, ◌≤◌, IfOk, IfSome, option_map};
ghost use Rattle.std.specs.List.{All};
ghost use Rattle.toml.specs.View.{view, array_view, table_view};
ghost use Rattle.toml_values.specs.Prelude.{all_named};
ghost use Rattle.settings_file.specs.Values.{all_read, is_way_key, column_at, way_of, ways_of, IsWay, AreWays};

use crate::keys::Key;
use crate::values::{MOST_COLUMN, number_within};
use std::alloc::{AllocError, Global};
use toml::value::Array;
use toml::{Table, Value};

/// The most ways to treat blocks that settings list.
pub const MOST_WAYS: usize = 8;

// Contracts cite the limit by its name, so a wrong number would change code and contract alike: this is the number.
fn most_ways()
    ensures { MOST_WAYS ≡ 8 }
{}

/// The columns of a way to treat blocks.
#[derive(Clone, Copy, Debug, PartialEq, Eq)]
pub struct WayColumns {
    /// The number of the column of what blocks earn that go this way.
    pub revenue: u32,
    /// The number of the column of what it costs to process them.
    pub processing: u32,
}

// Whether a text is a name that a way's table has.
fn is_way_key(text: &str) -> bool
    ensures { result ≡ is_way_key text.now }
{
    if text == Key::Revenue.name() {
        return true;
    }
    if text == Key::Processing.name() {
        return true;
    }
    false
}

// Whether every name of the table is one that a way's table has.
fn has_way_keys(table: &Table) -> bool
    ensures { result ≡ all_named is_way_key (table_view table.now) }
{
    for name in table.keys() {
        if !is_way_key(name.as_str()) {
            return false;
        }
    }
    true
}

// The number of a column at a key, or `None` where the table has no such number there.
fn column_at(table: &Table, key: Key) -> Option<u32>
    ensures value { result ≡ column_at key (table_view table.now) }
    ensures bound { IfSome result (λ n. n ≤ 65535) }
{
    match table.get(key.name()) {
        Some(value) => number_within(value, MOST_COLUMN),
        None => None,
    }
}

// The way that a value is.
fn way_in(value: &Value) -> Option<WayColumns>
    ensures value { result ≡ way_of (view value.now) }
    ensures bound { IfSome result IsWay }
{
    match value.as_table() {
        Some(table) => {
            if !has_way_keys(table) {
                return None;
            }
            match (
                column_at(table, Key::Revenue),
                column_at(table, Key::Processing),
            ) {
                (Some(revenue), Some(processing)) => Some(WayColumns {
                    revenue,
                    processing,
                }),
                _ => None,
            }
        }
        None => None,
    }
}

// The ways that the values are, or `None` where one is something else.
fn ways_among(alloc: Global, values: &Array) -> Result<Option<Vec<WayColumns>>, AllocError>
    ensures value { IfOk result
        (λ o. option_map (λ v. v.items) o ≡ all_read way_of (array_view values.now)) }
    ensures bound { IfOk result (λ o. IfSome o (λ v. All IsWay v.items)) }
{
    let mut ways = Vec::new(alloc);
    for value in values {
        match way_in(value) {
            Some(way) => ways.push(way)?,
            None => return Ok(None),
        }
    }
    Ok(Some(ways))
}

// The ways that a value is: 1 to 8 of them.
pub(crate) fn ways_in(alloc: Global, value: &Value) -> Result<Option<Vec<WayColumns>>, AllocError>
    ensures value { IfOk result (λ o. option_map (λ v. v.items) o ≡ ways_of (view value.now)) }
    ensures form { IfOk result (λ o. IfSome o (λ v. AreWays v.items)) }
{
    match value.as_array() {
        Some(values) => match ways_among(alloc, values)? {
            Some(ways) => {
                if 1 <= ways.len() && ways.len() <= MOST_WAYS {
                    Ok(Some(ways))
                } else {
                    Ok(None)
                }
            }
            None => Ok(None),
        },
        None => Ok(None),
    }
}
