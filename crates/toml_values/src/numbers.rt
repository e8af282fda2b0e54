//! Reads a value that has to be a whole number within its range.

ghost use Rattle.std.specs.Prelude.{◌≡◌, ◌≤◌, IfSome};
ghost use Rattle.toml.specs.View.{view};
ghost use Rattle.toml_values.specs.Numbers.{whole_value_within};

use toml::Value;

/// The whole number from 0 to `most` that a value is; `None` where it is anything else.
pub fn number_within(value: &Value, most: u64) -> Option<u64>
    ensures value { result ≡ whole_value_within most (view value.now) }
    ensures bound { IfSome result (λ n. n ≤ most) }
{
    match value.as_integer() {
        Some(number) => {
            if 0 <= number && number as u64 <= most {
                Some(number as u64)
            } else {
                None
            }
        }
        None => None,
    }
}
