//! Multiplies a number by one power of ten and divides it by another, rounded to the nearest whole
//! number, without overflow; nothing where the result is above 10^18.

ghost use Rattle.std.specs.Prelude.{◌≡◌, ◌+◌, ◌*◌, ◌/◌, ◌<◌, ◌≤◌, ◌^◌, SomeIff};
ghost use Rattle.fixed_worth.specs.Decimal.{rounded_of};

// The largest amount of millionths that a numeral may stand for.
const MOST: u128 = 1_000_000_000_000_000_000;

// The number with k zeros after it, where it is at most 10^18.
fn scaled_up(m: u128, k: u32) -> Option<u128>
    requires { m < 10 ^ 36 }
    ensures { SomeIff result (m * 10 ^ k ≤ 10 ^ 18) (m * 10 ^ k) }
{
    let mut value = m;
    for i in 0..k {
        if value > MOST {
            return None;
        }
        value *= 10;
    }
    if value > MOST { None } else { Some(value) }
}

// 10^k, which fits 128 bits.
pub(crate) fn power_of_ten(k: u32) -> u128
    requires { k ≤ 37 }
    ensures { result ≡ 10 ^ k }
{
    let mut power = 1;
    for i in 0..k {
        power *= 10;
    }
    power
}

// The number divided by 10^k, to the nearest.
fn scaled_down(m: u128, k: u32) -> u128
    requires { m < 10 ^ 36 }
    ensures { result ≡ (2 * m + 10 ^ k) / (2 * 10 ^ k) }
{
    if k > 37 {
        return 0;
    }
    let unit = power_of_ten(k);
    (2 * m + unit) / (2 * unit)
}

// m * 10^up / 10^down to the nearest whole number, where that is at most 10^18.
pub(crate) fn rounded(m: u128, up: u32, down: u32) -> Option<u128>
    requires { m < 10 ^ 36 }
    ensures { SomeIff result (rounded_of m up down ≤ 10 ^ 18) (rounded_of m up down) }
{
    if up >= down {
        scaled_up(m, up - down)
    } else {
        let value = scaled_down(m, down - up);
        if value > MOST { None } else { Some(value) }
    }
}
