//! Reads the text of settings: gives the value of each of its keys, or says that it is no TOML, or has an unknown key
//! or a bad value.

ghost use Rattle.std.specs.Prelude.{◌≡◌, ◌≤◌, ◌⊎◌, Ok, Err, IfOk, IfErr, IfSome, MatchResult, map, option_map, is_some};
ghost use Rattle.toml.specs.Data.{get_member};
ghost use Rattle.toml.specs.View.{table_view};
ghost use Rattle.settings_file.specs.Keys.{settings_key_name, all_settings_keys};
ghost use Rattle.settings_file.specs.Values.{factors_of, offsets_of, slopes_of, ways_of, AreFactors, AreWays};
ghost use Rattle.settings_file.specs.GoodTables.{IsGoodUpToFactors, IsOfSettingsTable};
ghost use Rattle.settings_file.specs.Settings.{optional_at, has_mill, cost_in, offsets_in, regions_in, settings_in, ReadsSettings};

use crate::arrays::{factors_in, offsets_in, slopes_in};
use crate::keys::{Key, is_key};
use crate::settings::{Columns, RegionKeys, Settings, SlopeKeys};
use crate::settings_fault::SettingsFault;
use crate::values::{MOST_COLUMN, number_at, sign_at};
use crate::ways::{WayColumns, ways_in};
use fixed_worth::MOST_FACTOR;
use std::alloc::Global;
use toml::Table;
use toml_values::{DocumentFault, read_document};

// Whether every name of the table is a key.
fn has_only_keys(table: &Table) -> bool
    ensures { result ≡ all_settings_keys (table_view table.now) }
{
    for name in table.keys() {
        if !is_key(name.as_str()) {
            return false;
        }
    }
    true
}

// Whether the table has something at a key.
fn has_key(table: &Table, key: Key) -> bool
    ensures { result ≡ is_some (get_member (settings_key_name key) (table_view table.now)) }
{
    table.get(key.name()).is_some()
}

// Whether the table names a charge of a mill.
fn has_mill(table: &Table) -> bool
    ensures { result ≡ has_mill (table_view table.now) }
{
    has_key(table, Key::Processing) || has_key(table, Key::Mining)
}

// The column of costs of the table, which doesn't stand beside a mill's charges.
fn cost_at(table: &Table) -> Result<Option<u32>, SettingsFault>
    ensures value { result ≡ cost_in (table_view table.now) }
    ensures bound { IfOk result (λ o. IfSome o (λ n. n ≤ 65535)) }
    ensures fault { IfErr result (λ e. e ≡ SettingsFault.BadValue Key.Cost) }
{
    let cost = number_at(table, Key::Cost, MOST_COLUMN)?;
    if cost.is_some() && has_mill(table) {
        return Err(SettingsFault::BadValue(Key::Cost));
    }
    Ok(cost)
}

// The factors of the table.
fn factors_at(alloc: Global, table: &Table) -> Result<Option<Vec<u32>>, SettingsFault>
    ensures value { MatchResult result
        (λ o. optional_at Key.Factors factors_of (table_view table.now)
        ≡ Ok (option_map (λ v. v.items) o))
        (λ e. ¬ (e ≡ SettingsFault.NoMemory)
        → optional_at Key.Factors factors_of (table_view table.now) ≡ Err e) }
    ensures form { IfOk result (λ o. IfSome o (λ v. AreFactors v.items)) }
    ensures fault { IfErr result (λ e. (e ≡ SettingsFault.BadValue Key.Factors)
        ⊎ (e ≡ SettingsFault.NoMemory)) }
{
    match table.get(Key::Factors.name()) {
        Some(value) => match factors_in(alloc, value) {
            Ok(Some(factors)) => Ok(Some(factors)),
            Ok(None) => Err(SettingsFault::BadValue(Key::Factors)),
            Err(_) => Err(SettingsFault::NoMemory),
        },
        None => Ok(None),
    }
}

// The offsets at their key, whatever stands beside it.
fn listed_at(alloc: Global, table: &Table) -> Result<Option<Vec<(i32, i32, i32)>>, SettingsFault>
    ensures value { MatchResult result
        (λ o. optional_at Key.Offsets offsets_of (table_view table.now)
        ≡ Ok (option_map (λ v. v.items) o))
        (λ e. ¬ (e ≡ SettingsFault.NoMemory)
        → optional_at Key.Offsets offsets_of (table_view table.now) ≡ Err e) }
    ensures fault { IfErr result (λ e. (e ≡ SettingsFault.BadValue Key.Offsets)
        ⊎ (e ≡ SettingsFault.NoMemory)) }
{
    match table.get(Key::Offsets.name()) {
        Some(value) => match offsets_in(alloc, value) {
            Ok(Some(offsets)) => Ok(Some(offsets)),
            Ok(None) => Err(SettingsFault::BadValue(Key::Offsets)),
            Err(_) => Err(SettingsFault::NoMemory),
        },
        None => Ok(None),
    }
}

// The offsets of the table, which don't stand beside slopes by region.
fn offsets_at(alloc: Global, table: &Table) -> Result<Option<Vec<(i32, i32, i32)>>, SettingsFault>
    ensures value { MatchResult result
        (λ o. offsets_in (table_view table.now) ≡ Ok (option_map (λ v. v.items) o))
        (λ e. ¬ (e ≡ SettingsFault.NoMemory) → offsets_in (table_view table.now) ≡ Err e) }
    ensures fault { IfErr result (λ e. (e ≡ SettingsFault.BadValue Key.Offsets)
        ⊎ (e ≡ SettingsFault.NoMemory)) }
{
    let offsets = listed_at(alloc, table)?;
    if offsets.is_some() && has_key(table, Key::Slopes) {
        return Err(SettingsFault::BadValue(Key::Offsets));
    }
    Ok(offsets)
}

// The offsets of each region's slope of the table.
fn slopes_at(
    alloc: Global,
    table: &Table,
) -> Result<Option<Vec<Vec<(i32, i32, i32)>>>, SettingsFault>
    ensures value { MatchResult result
        (λ o. optional_at Key.Slopes slopes_of (table_view table.now)
        ≡ Ok (option_map (λ v. map (λ w. w.items) v.items) o))
        (λ e. ¬ (e ≡ SettingsFault.NoMemory)
        → optional_at Key.Slopes slopes_of (table_view table.now) ≡ Err e) }
    ensures fault { IfErr result (λ e. (e ≡ SettingsFault.BadValue Key.Slopes)
        ⊎ (e ≡ SettingsFault.NoMemory)) }
{
    match table.get(Key::Slopes.name()) {
        Some(value) => match slopes_in(alloc, value) {
            Ok(Some(slopes)) => Ok(Some(slopes)),
            Ok(None) => Err(SettingsFault::BadValue(Key::Slopes)),
            Err(_) => Err(SettingsFault::NoMemory),
        },
        None => Ok(None),
    }
}

// What the table says of slopes by region, or its first fault.
fn regions_at(alloc: Global, table: &Table) -> Result<RegionKeys, SettingsFault>
    ensures value { MatchResult result
        (λ by. regions_in (table_view table.now) ≡ Ok (record {
          slopes = option_map (λ v. map (λ w. w.items) v.items) by.slopes;
          region = by.region;
          up = by.up;
        }))
        (λ e. ¬ (e ≡ SettingsFault.NoMemory) → regions_in (table_view table.now) ≡ Err e) }
    ensures bound { IfOk result (λ by. IfSome by.region (λ column. column ≤ 65535)) }
    ensures kind { IfErr result IsOfSettingsTable }
{
    let slopes = slopes_at(alloc, table)?;
    let region = number_at(table, Key::Region, MOST_COLUMN)?;
    let up = sign_at(table)?;
    Ok(RegionKeys { slopes, region, up })
}

// The ways to treat blocks of the table.
fn ways_at(alloc: Global, table: &Table) -> Result<Option<Vec<WayColumns>>, SettingsFault>
    ensures value { MatchResult result
        (λ o. optional_at Key.Ways ways_of (table_view table.now)
        ≡ Ok (option_map (λ v. v.items) o))
        (λ e. ¬ (e ≡ SettingsFault.NoMemory)
        → optional_at Key.Ways ways_of (table_view table.now) ≡ Err e) }
    ensures form { IfOk result (λ o. IfSome o (λ v. AreWays v.items)) }
    ensures fault { IfErr result (λ e. (e ≡ SettingsFault.BadValue Key.Ways)
        ⊎ (e ≡ SettingsFault.NoMemory)) }
{
    match table.get(Key::Ways.name()) {
        Some(value) => match ways_in(alloc, value) {
            Ok(Some(ways)) => Ok(Some(ways)),
            Ok(None) => Err(SettingsFault::BadValue(Key::Ways)),
            Err(_) => Err(SettingsFault::NoMemory),
        },
        None => Ok(None),
    }
}

// What the table says, or its first fault.
fn settings_of(alloc: Global, table: &Table) -> Result<Settings, SettingsFault>
    ensures value { MatchResult result
        (λ s. settings_in (table_view table.now) ≡ Ok s)
        (λ e. ¬ (e ≡ SettingsFault.NoMemory) → settings_in (table_view table.now) ≡ Err e) }
    ensures early { IfErr result (λ e. e ≡ SettingsFault.NoMemory
        → IsGoodUpToFactors (table_view table.now)) }
    ensures kind { IfErr result IsOfSettingsTable }
{
    if !has_only_keys(table) {
        return Err(SettingsFault::UnknownKey);
    }
    let revenue = number_at(table, Key::Revenue, MOST_COLUMN)?;
    let cost = cost_at(table)?;
    let tonnes = number_at(table, Key::Tonnes, MOST_COLUMN)?;
    let factors = factors_at(alloc, table)?;
    let report = number_at(table, Key::Report, MOST_FACTOR)?;
    let offsets = offsets_at(alloc, table)?;
    let processing = number_at(table, Key::Processing, MOST_COLUMN)?;
    let mining = number_at(table, Key::Mining, MOST_COLUMN)?;
    let regions = regions_at(alloc, table)?;
    let ways = ways_at(alloc, table)?;
    let columns = Columns {
        revenue,
        cost,
        tonnes,
        processing,
        mining,
    };
    let slopes = SlopeKeys { offsets, regions };
    Ok(Settings::of(columns, factors, report, slopes, ways))
}

/// What a text says as settings.
///
/// # Errors
/// In this order: `NotToml` where the text is no TOML document; `UnknownKey` where a name of its table is no key;
/// `BadValue` with the first key whose value is of a wrong kind or out of its range (a cost beside a mill's charges
/// counts as a bad value of `cost`, and so do offsets beside slopes by region). `NoMemory` where memory is refused.
/// Never `Unused` or `Missing`.
pub fn read_settings(alloc: Global, bytes: &[u8]) -> Result<Settings, SettingsFault>
    ensures { ReadsSettings bytes.now result }
{
    match read_document(alloc, bytes) {
        Ok(table) => settings_of(alloc, &table),
        Err(DocumentFault::NotToml) => Err(SettingsFault::NotToml),
        Err(DocumentFault::NoMemory) => Err(SettingsFault::NoMemory),
    }
}
