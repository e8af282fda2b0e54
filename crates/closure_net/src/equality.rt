//! Whether two lists of pairs or of amounts are the same.

ghost use Rattle.std.specs.Prelude.{◌≡◌, ◌↔◌, IsTrue, map};

use ordered_group::{OrderedGroup, same};
use prec_file::Rests;

/// Whether both have the same pairs. Linear in their number, and takes no memory.
pub fn same_pairs(a: &Rests, b: &Rests) -> bool
    ensures { IsTrue result ↔ (a.now.pairs ≡ b.now.pairs) }
{
    if a.pairs() != b.pairs() {
        return false;
    }
    for k in 0..a.pairs() {
        if a.pair(k) != b.pair(k) {
            return false;
        }
    }
    true
}

// Whether the amounts are the same.
pub(crate) fn same_amounts<G: OrderedGroup>(xs: &[G], ys: &[G]) -> bool
    ensures { IsTrue result ↔ (map G.parts_of xs.now ≡ map G.parts_of ys.now) }
{
    if xs.len() != ys.len() {
        return false;
    }
    for k in 0..xs.len() {
        if !same(xs[k], ys[k]) {
            return false;
        }
    }
    true
}
