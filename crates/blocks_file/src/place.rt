//! Where a block is, by its coordinates along three axes, and how a field is read as a coordinate.

ghost use Rattle.std.specs.Prelude.{◌≡◌};
ghost use Rattle.blocks_file.specs.Records as spec;

use fixed_worth::signed_whole;

/// Where a block is: its coordinate along each of three axes, as the text gives it.
#[derive(Clone, Copy, PartialEq, Eq, PartialOrd, Ord, Debug)]
pub struct Place {
    /// Along the first axis.
    pub x: i32,
    /// Along the second axis.
    pub y: i32,
    /// Along the third axis; whether it counts upward is for the slopes to say.
    pub z: i32,
}

// The coordinate that a field is.
pub(crate) fn read_coordinate(field: &[u8]) -> Option<i32>
    ensures { result ≡ spec.coordinate_read field.now }
{
    let value = signed_whole(field).ok()?;
    if value >= -2_147_483_648 && value < 2_147_483_648 {
        Some(value as i32)
    } else {
        None
    }
}
