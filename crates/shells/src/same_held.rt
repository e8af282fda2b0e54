//! Whether a list has just the pairs of a precedence, whoever holds it.

ghost use Rattle.std.specs.Prelude.{◌≡◌, ◌<◌, ◌↔◌, ℕ, IsTrue, Contains};

use held_pairs::HeldPairs;
use places::Precedence;
use prec_file::Rests;

// Whether b rests on p.
fn is_held<P: Precedence>(held: &P, b: u32, p: u32) -> bool
    ensures { result ≡ (P.shown held.now).rests b p }
{
    b < held.len() && held.has(b, p)
}

// Whether a list has a pair.
fn is_listed(list: &Rests, b: u32, p: u32) -> bool
    ensures { IsTrue result ↔ Contains list.now.pairs (b, p) }
{
    b < list.len() && list.find(b, p).is_some()
}

/// Whether one rests on another by each pair of a list. Takes no memory.
pub fn all_held<P: Precedence>(list: &Rests, held: &P) -> bool
    ensures { IsTrue result ↔ ((b p : ℕ) → Contains list.now.pairs (b, p)
        → IsTrue ((P.shown held.now).rests b p)) }
{
    for k in 0..list.pairs() {
        let (b, p) = list.pair(k);
        if !is_held(held, b, p) {
            return false;
        }
    }
    true
}

// Whether a list has each pair of a block.
fn has_row<P: Precedence>(list: &Rests, held: &P, b: u32) -> bool
    requires { b < (P.shown held.now).blocks }
    ensures { IsTrue result ↔ ((p : ℕ) → IsTrue ((P.shown held.now).rests b p)
        → Contains list.now.pairs (b, p)) }
{
    // proof: the ways of a block lead to just what it rests on
    let _blocks = held.len();
    for way in 0..held.ways(b) {
        if let Some(p) = held.way(b, way)
            && !is_listed(list, b, p)
        {
            return false;
        }
    }
    true
}

// Whether a list has each pair of a precedence.
fn all_listed<P: Precedence>(list: &Rests, held: &P) -> bool
    ensures { IsTrue result ↔ ((b p : ℕ) → IsTrue ((P.shown held.now).rests b p)
        → Contains list.now.pairs (b, p)) }
{
    for b in 0..held.len() {
        if !has_row(list, held, b) {
            return false;
        }
    }
    true
}

/// Whether a list has just the pairs that are held. Takes no memory.
pub(crate) fn are_same(list: &Rests, pairs: &HeldPairs) -> bool
    ensures { IsTrue result ↔ (list.now.pairs ≡ pairs.now.pairs) }
{
    // proof: what is known of all pairs, and of every precedence
    let _list = list.len();
    let _pairs = pairs.len();
    let held = pairs.as_ref();
    let _blocks = held.blocks();
    all_held(list, &held) && all_listed(list, &held)
}
