//! Finds the block that stands at an offset from a place, by a search of the index that begins at a guess.

ghost use Rattle.std.specs.Prelude.{◌≡◌, ◌≢◌, ℕ, ◌<◌, ◌≤◌, IfSome, IsTrue, MatchOption, length};
ghost use Rattle.slope.specs.Slopes.{block_place, offset_between};
ghost use Rattle.slope_offsets.specs.Offsets.{AreOffsetsRising};
ghost use Rattle.slope.specs.Gathering.{IsEndOrBelow, IsStartOrAbove, IsFinding, IsIndex};

use crate::offset_places::place_at;
use crate::place_index::{PlaceIndex, PlaceKey, key_of};
use blocks_file::{BlockModel, Place};
use slope_offsets::Up;

// How many keys are looked at on each side of a guess.
const NEAR: usize = 8;

// The last place up to the guess in front of which the keys are below this one, where that is near.
fn receded(keys: &[PlaceKey], key: PlaceKey, guess: usize) -> usize
    ensures { result ≤ length keys.now }
{
    let mut at = guess.min(keys.len());
    for _ in 0..NEAR {
        if at == 0 || keys[at - 1] < key {
            return at;
        }
        at -= 1;
    }
    at
}

// The first place from this one on whose key isn't below the key, where that is near.
fn passed(keys: &[PlaceKey], key: PlaceKey, from: usize) -> usize
    ensures { result ≤ length keys.now }
{
    let mut at = from.min(keys.len());
    for _ in 0..NEAR {
        if at == keys.len() || keys[at] >= key {
            return at;
        }
        at += 1;
    }
    at
}

// Whether the keys from a place on are all above this one, as the first of them tells.
fn is_below_from(keys: &[PlaceKey], key: PlaceKey, at: usize) -> bool
    requires { at ≤ length keys.now }
    ensures { IsTrue result → IsEndOrBelow keys.now key at }
{
    at == keys.len() || key < keys[at]
}

// Whether the keys in front of a place are all below this one, as the last of them tells.
fn is_above_to(keys: &[PlaceKey], key: PlaceKey, at: usize) -> bool
    requires { at ≤ length keys.now }
    ensures { IsTrue result → IsStartOrAbove keys.now key at }
{
    at == 0 || keys[at - 1] < key
}

// What the keys at a place and in front of it tell of this one.
fn told(keys: &[PlaceKey], key: PlaceKey, at: usize) -> Option<Result<usize, usize>>
    requires rising { AreOffsetsRising keys.now }
    requires inside { at ≤ length keys.now }
    ensures { IfSome result (IsFinding keys.now key) }
{
    if at < keys.len() && keys[at] == key {
        return Some(Ok(at));
    }
    if is_below_from(keys, key, at) && is_above_to(keys, key, at) {
        return Some(Err(at));
    }
    None
}

// The place of the key, or the place of the first key after it where it isn't among them. It is looked for near the
// guess first, and nothing rests on a good guess but time.
pub(crate) fn found(keys: &[PlaceKey], key: PlaceKey, guess: usize) -> Result<usize, usize>
    requires { AreOffsetsRising keys.now }
    ensures { IsFinding keys.now key result }
{
    if guess < keys.len() && keys[guess] == key {
        return Ok(guess);
    }
    match told(keys, key, passed(keys, key, receded(keys, key, guess))) {
        Some(found) => found,
        None => keys.binary_search(&key),
    }
}

// The block at this offset from a place, if there is one, and where the search ended.
pub(crate) fn block_at(
    index: &PlaceIndex,
    model: &BlockModel,
    from: Place,
    offset: (i32, i32, i32),
    up: Up,
    guess: usize,
) -> (Option<u32>, usize)
    requires { IsIndex model.now index.now.keys.items index.now.blocks.items }
    ensures { MatchOption result.0
        ((p : ℕ) → p < model.now.blocks → offset_between up from (block_place model.now p) ≢ offset)
        (λ p. (p < model.now.blocks)
        × (offset_between up from (block_place model.now p) ≡ offset)) }
{
    let Some(place) = place_at(from, offset, up) else {
        return (None, guess);
    };
    match found(&index.keys, key_of(place), guess) {
        Ok(at) => (Some(index.blocks[at]), at),
        Err(at) => (None, at),
    }
}
