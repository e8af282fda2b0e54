//! Gives the place at an offset from another, by which way is up, or nothing where a coordinate wouldn't fit.

ghost use Rattle.std.specs.Prelude.{◌≡◌, ◌≢◌, ◌≤◌, ◌^◌, ◌+ℤ◌, ℤ, FitsSigned, MatchOption, unsigned_abs};
ghost use Rattle.std.specs.Int.{w32};
ghost use Rattle.blocks_file.specs.declared.place.Place.{Place as Spot};
ghost use Rattle.slope.specs.Slopes.{upward, offset_between};
ghost use Rattle.slope.specs.Gathering.{IsPlace};

use blocks_file::Place;
use slope_offsets::Up;

// The sum, where it is a coordinate.
fn moved(from: i32, by: i64) -> Option<i32>
    requires { unsigned_abs by ≤ 2 ^ 31 }
    ensures { MatchOption result
        ((to : ℤ) → FitsSigned w32 to → from +ℤ by ≢ to)
        (λ to. from +ℤ by ≡ to) }
{
    let to = from as i64 + by;
    if to < -2_147_483_648 || to >= 2_147_483_648 {
        None
    } else {
        Some(to as i32)
    }
}

// The difference of heights that leads up by so much.
fn height(by: i32, up: Up) -> i64
    ensures up { upward up result ≡ by }
    ensures bound { unsigned_abs result ≤ 2 ^ 31 }
{
    match up {
        Up::PlusZ => by as i64,
        Up::MinusZ => -(by as i64),
    }
}

// The place at this offset, where there is one: coordinates end at those of 32 bits, and no offset goes round.
pub(crate) fn place_at(from: Place, offset: (i32, i32, i32), up: Up) -> Option<Place>
    ensures { MatchOption result
        ((to : Spot) → IsPlace to → offset_between up from to ≢ offset)
        (λ to. offset_between up from to ≡ offset) }
{
    let x = moved(from.x, offset.0 as i64)?;
    let y = moved(from.y, offset.1 as i64)?;
    let z = moved(from.z, height(offset.2, up))?;
    Some(Place { x, y, z })
}
