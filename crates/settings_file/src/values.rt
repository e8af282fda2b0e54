//! Reads one value of settings: a whole number within its range, such as a column's number or a factor, or which way is
//! up; tells a missing key from a bad value.

ghost use Rattle.std.specs.Prelude.{◌≡◌, ◌≤◌, IfSome, IfOk, IfErr};
ghost use Rattle.toml.specs.View.{view, table_view};
ghost use Rattle.toml_values.specs.Prelude.{whole_value_within};
ghost use Rattle.settings_file.specs.Values.{offset_number, sign_of};
ghost use Rattle.settings_file.specs.Settings.{optional_at};

use crate::keys::Key;
use crate::settings_fault::SettingsFault;
use crate::up_sign::UpSign;
use toml::{Table, Value};

pub(crate) const MOST_COLUMN: u32 = 65_535;

// Contracts cite the limit by its name, so a wrong number would change code and contract alike: this is the number.
fn greatest_column()
    ensures { MOST_COLUMN ≡ 65535 }
{}

// The whole number from 0 to `most` that a value is.
pub(crate) fn number_within(value: &Value, most: u32) -> Option<u32>
    ensures value { result ≡ whole_value_within most (view value.now) }
    ensures bound { IfSome result (λ n. n ≤ most) }
{
    match toml_values::number_within(value, most as u64) {
        Some(number) => Some(number as u32),
        None => None,
    }
}

// The whole number in an i32 that a value is.
pub(crate) fn number_in_i32(value: &Value) -> Option<i32>
    ensures { result ≡ offset_number (view value.now) }
{
    match value.as_integer() {
        Some(number) => {
            if -2_147_483_648 <= number && number <= 2_147_483_647 {
                Some(number as i32)
            } else {
                None
            }
        }
        None => None,
    }
}

// The whole number from 0 to `most` at a key, or `None` where the table doesn't have the key.
pub(crate) fn number_at(table: &Table, key: Key, most: u32) -> Result<Option<u32>, SettingsFault>
    ensures value { result ≡ optional_at key (whole_value_within most) (table_view table.now) }
    ensures bound { IfOk result (λ o. IfSome o (λ n. n ≤ most)) }
    ensures fault { IfErr result (λ e. e ≡ SettingsFault.BadValue key) }
{
    match table.get(key.name()) {
        Some(value) => match number_within(value, most) {
            Some(number) => Ok(Some(number)),
            None => Err(SettingsFault::BadValue(key)),
        },
        None => Ok(None),
    }
}

// Which way is up, by a value.
fn sign_in(value: &Value) -> Option<UpSign>
    ensures { result ≡ sign_of (view value.now) }
{
    match value.as_str() {
        Some(word) => {
            if word == "plus" {
                return Some(UpSign::Plus);
            }
            if word == "minus" {
                return Some(UpSign::Minus);
            }
            None
        }
        None => None,
    }
}

// Which way is up, or `None` where the table doesn't say.
pub(crate) fn sign_at(table: &Table) -> Result<Option<UpSign>, SettingsFault>
    ensures value { result ≡ optional_at Key.Up sign_of (table_view table.now) }
    ensures fault { IfErr result (λ e. e ≡ SettingsFault.BadValue Key.Up) }
{
    match table.get(Key::Up.name()) {
        Some(value) => match sign_in(value) {
            Some(sign) => Ok(Some(sign)),
            None => Err(SettingsFault::BadValue(Key::Up)),
        },
        None => Ok(None),
    }
}
