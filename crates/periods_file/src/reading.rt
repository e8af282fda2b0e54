//! Reads the text of periods: gives the value of each of its keys, or says that it is no TOML, has an unknown key, a
//! bad value, or lacks a key.

ghost use Rattle.std.specs.Prelude.{◌≡◌, ◌≤◌, ◌*◌, Ok, Err, IfOk, IfErr, MatchResult, [], length, option_map};
ghost use Rattle.toml.specs.View.{table_view};
ghost use Rattle.periods_file.specs.Keys.{all_known};
ghost use Rattle.periods_file.specs.Values.{columns_of, lag_of, rows_of, weights_of};
ghost use Rattle.periods_file.specs.ByWay.{resources_of, shared_of, width_of};
ghost use Rattle.periods_file.specs.Periods.{IsOfTable, ReadsPeriods, or_given, or_none, periods_in, periods_view, said_at};

use crate::arrays::{columns_in, rows_in, weights_in};
use crate::by_way::{resources_in, shared_in};
use crate::keys::{PeriodKey, is_key};
use crate::periods::Periods;
use crate::periods_fault::PeriodsFault;
use crate::values::lag_in;
use std::alloc::Global;
use toml::Table;
use toml_values::{DocumentFault, read_document};

// The most that a period has of a resource, in whole units.
const MOST_CAPACITY: u64 = 1_000_000_000_000;

// The most that a unit of a resource is priced at, in billionths.
const MOST_PRICE: u64 = 1_000_000_000_000_000;

// Whether every name of the table is a key.
fn has_only_keys(table: &Table) -> bool
    ensures { result ≡ all_known (table_view table.now) }
{
    for name in table.keys() {
        if !is_key(name.as_str()) {
            return false;
        }
    }
    true
}

// The weights of the table.
fn weights_at(alloc: Global, table: &Table) -> Result<Vec<u64>, PeriodsFault>
    ensures value { MatchResult result
        (λ v. said_at PeriodKey.Weights weights_of (table_view table.now) ≡ Ok v.items)
        (λ e. ¬ (e ≡ PeriodsFault.NoMemory)
        → said_at PeriodKey.Weights weights_of (table_view table.now) ≡ Err e) }
    ensures few { IfOk result (λ v. length v.items ≤ 1000) }
    ensures kind { IfErr result IsOfTable }
{
    match table.get(PeriodKey::Weights.name()) {
        Some(value) => match weights_in(alloc, value) {
            Ok(Some(weights)) => Ok(weights),
            Ok(None) => Err(PeriodsFault::BadValue(PeriodKey::Weights)),
            Err(_) => Err(PeriodsFault::NoMemory),
        },
        None => Err(PeriodsFault::Missing(PeriodKey::Weights)),
    }
}

// Whether each resource of the table has one column for all ways.
fn shared_at(alloc: Global, table: &Table) -> Result<Vec<bool>, PeriodsFault>
    ensures value { MatchResult result
        (λ v. said_at PeriodKey.Resources shared_of (table_view table.now) ≡ Ok v.items)
        (λ e. ¬ (e ≡ PeriodsFault.NoMemory)
        → said_at PeriodKey.Resources shared_of (table_view table.now) ≡ Err e) }
    ensures few { IfOk result (λ v. length v.items ≤ 8) }
    ensures kind { IfErr result IsOfTable }
{
    match table.get(PeriodKey::Resources.name()) {
        Some(value) => match shared_in(alloc, value) {
            Ok(Some(shared)) => Ok(shared),
            Ok(None) => Err(PeriodsFault::BadValue(PeriodKey::Resources)),
            Err(_) => Err(PeriodsFault::NoMemory),
        },
        None => Err(PeriodsFault::Missing(PeriodKey::Resources)),
    }
}

// The columns of so many resources of the table, by each way.
fn resources_at(
    alloc: Global,
    table: &Table,
    ways: u32,
    rows: usize,
) -> Result<Vec<u32>, PeriodsFault>
    requires { rows ≤ 8 }
    ensures value { MatchResult result
        (λ v. said_at PeriodKey.Resources (resources_of ways rows) (table_view table.now)
        ≡ Ok v.items)
        (λ e. ¬ (e ≡ PeriodsFault.NoMemory)
        → said_at PeriodKey.Resources (resources_of ways rows) (table_view table.now) ≡ Err e) }
    ensures size { IfOk result (λ v. length v.items ≡ rows * width_of ways) }
    ensures kind { IfErr result IsOfTable }
{
    match table.get(PeriodKey::Resources.name()) {
        Some(value) => match resources_in(alloc, value, ways, rows) {
            Ok(Some(resources)) => Ok(resources),
            Ok(None) => Err(PeriodsFault::BadValue(PeriodKey::Resources)),
            Err(_) => Err(PeriodsFault::NoMemory),
        },
        None => Err(PeriodsFault::Missing(PeriodKey::Resources)),
    }
}

// The capacities of the table: so many rows of so many periods.
fn capacities_at(
    alloc: Global,
    table: &Table,
    rows: usize,
    width: usize,
) -> Result<Vec<u64>, PeriodsFault>
    requires rows { rows ≤ 8 }
    requires width { width ≤ 1000 }
    ensures value { MatchResult result
        (λ v. said_at PeriodKey.Capacities (rows_of 1000000000000 rows width) (table_view table.now)
        ≡ Ok v.items)
        (λ e. ¬ (e ≡ PeriodsFault.NoMemory) → said_at PeriodKey.Capacities
        (rows_of 1000000000000 rows width) (table_view table.now) ≡ Err e) }
    ensures kind { IfErr result IsOfTable }
{
    match table.get(PeriodKey::Capacities.name()) {
        Some(value) => match rows_in(alloc, value, MOST_CAPACITY, rows, width) {
            Ok(Some(capacities)) => Ok(capacities),
            Ok(None) => Err(PeriodsFault::BadValue(PeriodKey::Capacities)),
            Err(_) => Err(PeriodsFault::NoMemory),
        },
        None => Err(PeriodsFault::Missing(PeriodKey::Capacities)),
    }
}

// The multipliers of the table, where it has some: so many rows of so many periods.
fn multipliers_at(
    alloc: Global,
    table: &Table,
    rows: usize,
    width: usize,
) -> Result<Option<Vec<u64>>, PeriodsFault>
    requires rows { rows ≤ 8 }
    requires width { width ≤ 1000 }
    ensures value { MatchResult result
        (λ o. or_none (said_at PeriodKey.Multipliers (rows_of 1000000000000000 rows width)
        (table_view table.now)) ≡ Ok (option_map (λ v. v.items) o))
        (λ e. ¬ (e ≡ PeriodsFault.NoMemory) → or_none (said_at PeriodKey.Multipliers
        (rows_of 1000000000000000 rows width) (table_view table.now)) ≡ Err e) }
    ensures kind { IfErr result IsOfTable }
{
    match table.get(PeriodKey::Multipliers.name()) {
        Some(value) => match rows_in(alloc, value, MOST_PRICE, rows, width) {
            Ok(Some(prices)) => Ok(Some(prices)),
            Ok(None) => Err(PeriodsFault::BadValue(PeriodKey::Multipliers)),
            Err(_) => Err(PeriodsFault::NoMemory),
        },
        None => Ok(None),
    }
}

// The columns of the blocks for which blocks wait, which are none where the table has no such key.
fn waits_at(alloc: Global, table: &Table) -> Result<Vec<u32>, PeriodsFault>
    ensures value { MatchResult result
        (λ v. or_given [] (said_at PeriodKey.Waits columns_of (table_view table.now)) ≡ Ok v.items)
        (λ e. ¬ (e ≡ PeriodsFault.NoMemory)
        → or_given [] (said_at PeriodKey.Waits columns_of (table_view table.now)) ≡ Err e) }
    ensures few { IfOk result (λ v. length v.items ≤ 8) }
    ensures kind { IfErr result IsOfTable }
{
    match table.get(PeriodKey::Waits.name()) {
        Some(value) => match columns_in(alloc, value) {
            Ok(Some(waits)) => Ok(waits),
            Ok(None) => Err(PeriodsFault::BadValue(PeriodKey::Waits)),
            Err(_) => Err(PeriodsFault::NoMemory),
        },
        None => Ok(Vec::new(alloc)),
    }
}

// How many periods they wait, which is one where the table has no such key.
fn lag_at(table: &Table) -> Result<u32, PeriodsFault>
    ensures value { MatchResult result
        (λ n. or_given 1 (said_at PeriodKey.Lag lag_of (table_view table.now)) ≡ Ok n)
        (λ e. or_given 1 (said_at PeriodKey.Lag lag_of (table_view table.now)) ≡ Err e) }
    ensures few { IfOk result (λ n. n ≤ 1000) }
    ensures kind { IfErr result IsOfTable }
{
    match table.get(PeriodKey::Lag.name()) {
        Some(value) => match lag_in(value) {
            Some(lag) => Ok(lag),
            None => Err(PeriodsFault::BadValue(PeriodKey::Lag)),
        },
        None => Ok(1),
    }
}

// What the table says, or its first fault.
fn periods_of(alloc: Global, table: &Table, ways: u32) -> Result<Periods, PeriodsFault>
    ensures value { MatchResult result
        (λ p. periods_in ways (table_view table.now) ≡ Ok (periods_view p))
        (λ e. ¬ (e ≡ PeriodsFault.NoMemory) → periods_in ways (table_view table.now) ≡ Err e) }
    ensures few { IfOk result (λ p. (length p.weights.items ≤ 1000) × (length p.shared.items ≤ 8)) }
    ensures size { IfOk result
        (λ p. length p.resources.items ≡ length p.shared.items * width_of ways) }
    ensures waits { IfOk result (λ p. (length p.waits.items ≤ 8) × (p.lag ≤ 1000)) }
    ensures kind { IfErr result IsOfTable }
{
    if !has_only_keys(table) {
        return Err(PeriodsFault::UnknownKey);
    }
    let weights = weights_at(alloc, table)?;
    let shared = shared_at(alloc, table)?;
    let resources = resources_at(alloc, table, ways, shared.len())?;
    let capacities = capacities_at(alloc, table, shared.len(), weights.len())?;
    let multipliers = multipliers_at(alloc, table, shared.len(), weights.len())?;
    let waits = waits_at(alloc, table)?;
    let lag = lag_at(table)?;
    Ok(Periods {
        weights,
        resources,
        shared,
        capacities,
        multipliers,
        waits,
        lag,
    })
}

/// What a text says as periods, where there are so many ways to treat a block beside waste.
///
/// # Errors
/// In this order: `NotToml` where the text is no TOML document; `UnknownKey` where a name of its table is no key;
/// `Missing` or `BadValue` with the first key that isn't there, or whose value is of a wrong kind or out of its range.
/// `NoMemory` where memory is refused.
pub fn read_periods(alloc: Global, bytes: &[u8], ways: u32) -> Result<Periods, PeriodsFault>
    ensures read { MatchResult result
        (λ p. ReadsPeriods ways bytes.now (Ok (periods_view p)))
        (λ e. ReadsPeriods ways bytes.now (Err e)) }
    ensures few { IfOk result (λ p. (length p.weights.items ≤ 1000) × (length p.shared.items ≤ 8)) }
    ensures size { IfOk result
        (λ p. length p.resources.items ≡ length p.shared.items * width_of ways) }
    ensures waits { IfOk result (λ p. (length p.waits.items ≤ 8) × (p.lag ≤ 1000)) }
{
    match read_document(alloc, bytes) {
        Ok(table) => periods_of(alloc, &table, ways),
        Err(DocumentFault::NotToml) => Err(PeriodsFault::NotToml),
        Err(DocumentFault::NoMemory) => Err(PeriodsFault::NoMemory),
    }
}
