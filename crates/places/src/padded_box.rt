//! A padded box, the cell of a place in it, and the cell to which an offset leads, or nothing where one isn't inside.

ghost use Rattle.std.specs.Prelude.{◌≡◌, ◌<◌, ◌+ℤ◌, pos, IfSome};
ghost use Rattle.slope.specs.Slopes.{upward};
ghost use Rattle.places.specs.Boxes.{IsIn, IsRaised, cell_of};

use blocks_file::{BlockModel, Place};
use slope_offsets::Up;

/// The box of a grid: its least coordinates, the third counted upward; how many cells a row has, and rows a level; and
/// how far offsets reach along each axis.
#[derive(Clone, Copy)]
pub(crate) struct PaddedBox {
    pub(crate) lx: i64,
    pub(crate) ly: i64,
    pub(crate) lz: i64,
    pub(crate) sx: u32,
    pub(crate) sy: u32,
    pub(crate) px: u32,
    pub(crate) py: u32,
    pub(crate) pz: u32,
}

// How far a coordinate is from the least one, where it is not below.
fn from_least(least: i64, at: i64) -> Option<u32>
    ensures { IfSome result (λ n. at ≡ least +ℤ pos n) }
{
    let far = at.checked_sub(least)?;
    if far >= 0 && far < 4_294_967_296 {
        Some(far as u32)
    } else {
        None
    }
}

// The cell of a spot, where it is below 2^32.
fn cell_at(sx: u32, sy: u32, x: u32, y: u32, z: u32) -> Option<u32>
    ensures { IfSome result (λ c. c ≡ cell_of sx sy x y z) }
{
    let row = (z as u64).checked_mul(sy as u64)?.checked_add(y as u64)?;
    let cell = row.checked_mul(sx as u64)?.checked_add(x as u64)?;
    if cell < 4_294_967_296 {
        Some(cell as u32)
    } else {
        None
    }
}

// How high a coordinate is.
fn height_of(up: Up, z: i32) -> i64
    ensures { result ≡ upward up z }
{
    match up {
        Up::PlusZ => z as i64,
        Up::MinusZ => -(z as i64),
    }
}

// The cell of a place in the box.
pub(crate) fn low_of(of: &PaddedBox, up: Up, place: Place) -> Option<u32>
    ensures { IfSome result (IsIn of.now up place) }
{
    let x = from_least(of.lx, place.x as i64)?;
    let y = from_least(of.ly, place.y as i64)?;
    let z = from_least(of.lz, height_of(up, place.z))?;
    if x as u64 + 2 * of.px as u64 >= of.sx as u64 || y as u64 + 2 * of.py as u64 >= of.sy as u64 {
        return None;
    }
    let cell = cell_at(of.sx, of.sy, x, y, z)?;
    Some(cell)
}

// The cell of an offset that is raised by the padding.
pub(crate) fn delta_of(of: &PaddedBox, offset: (i32, i32, i32)) -> Option<u32>
    ensures { IfSome result (IsRaised of.now offset) }
{
    let x = from_least(-(of.px as i64), offset.0 as i64)?;
    let y = from_least(-(of.py as i64), offset.1 as i64)?;
    let z = from_least(-(of.pz as i64), offset.2 as i64)?;
    if x as u64 > 2 * of.px as u64 || y as u64 > 2 * of.py as u64 {
        return None;
    }
    let cell = cell_at(of.sx, of.sy, x, y, z)?;
    Some(cell)
}

// The cell of no offset.
pub(crate) fn centre_of(of: &PaddedBox) -> Option<u32>
    ensures { IfSome result (λ c. c ≡ cell_of of.now.sx of.now.sy of.now.px of.now.py of.now.pz) }
{
    cell_at(of.sx, of.sy, of.px, of.py, of.pz)
}

// How far offsets reach along each axis, upward not counted. Nothing is claimed: what doesn't fit the box is found
// where it is laid out.
fn padding_of(slopes: &[Vec<(i32, i32, i32)>]) -> (u32, u32, u32) {
    let mut most = (0, 0, 0);
    for offsets in slopes {
        for offset in offsets {
            let down: u32 = if offset.2 < 0 {
                offset.2.unsigned_abs()
            } else {
                0
            };
            most = (
                offset.0.unsigned_abs().max(most.0),
                offset.1.unsigned_abs().max(most.1),
                down.max(most.2),
            );
        }
    }
    most
}

// How many cells there are from the least coordinate to the most, and so much on both sides.
fn span(least: i64, most: i64, padding: u32) -> Option<u32> {
    let inner = from_least(least, most)?.checked_add(1)?;
    inner.checked_add(padding)?.checked_add(padding)
}

// The smallest box for the blocks' places and these offsets, where there is one. Nothing is claimed of it either.
pub(crate) fn box_of(
    model: &BlockModel,
    slopes: &[Vec<(i32, i32, i32)>],
    up: Up,
) -> Option<PaddedBox> {
    let mut least: (i64, i64, i64) = (0, 0, 0);
    let mut most: (i64, i64, i64) = (0, 0, 0);
    for b in 0..model.len() {
        let place = model.place(b);
        let at = (place.x as i64, place.y as i64, height_of(up, place.z));
        if b == 0 {
            least = at;
            most = at;
        }
        least = (at.0.min(least.0), at.1.min(least.1), at.2.min(least.2));
        most = (at.0.max(most.0), at.1.max(most.1), at.2.max(most.2));
    }
    let (px, py, pz) = padding_of(slopes);
    let sx = span(least.0, most.0, px)?;
    let sy = span(least.1, most.1, py)?;
    Some(PaddedBox {
        lx: least.0,
        ly: least.1,
        lz: least.2,
        sx,
        sy,
        px,
        py,
        pz,
    })
}
