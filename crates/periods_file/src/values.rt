//! Reads one whole number of periods within its range.

ghost use Rattle.std.specs.Prelude.{◌≡◌, ◌≤◌, IfSome};
ghost use Rattle.toml.specs.View.{view};
ghost use Rattle.periods_file.specs.Values.{lag_of};

use toml::Value;
use toml_values::number_within;

// The whole number from 1 to 1,000 that a value is.
pub(crate) fn lag_in(value: &Value) -> Option<u32>
    ensures value { result ≡ lag_of (view value.now) }
    ensures bound { IfSome result (λ n. n ≤ 1000) }
{
    match number_within(value, 1_000) {
        Some(number) => {
            if 1 <= number {
                Some(number as u32)
            } else {
                None
            }
        }
        None => None,
    }
}
