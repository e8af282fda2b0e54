//! Marks the blocks of a pit, and decides by these marks whether it is closed: gives the first pair that
//! leads from the pit to a block outside.

ghost use Rattle.std.specs.Prelude.{◌≡◌, ℕ, ◌<◌, false, length, slice_index_or, IfSome, MatchOption};
ghost use Rattle.closure_net.specs.Network.{holds_of};
ghost use Rattle.closure_net.specs.Closure.{IsClosed};
ghost use Rattle.places.specs.Holders.{pairs_lent};
ghost use Rattle.check_pit.specs.Closing.{HoldsAbove, IsLacking, IsFirstOpen, HoldsEach, IsLeastLacking, least_with, lesser_number};

use places::{HeldRef, Precedence};
use prec_file::Predecessors;

// Marks the blocks of a list, and no other.
pub(crate) fn mark(marks: &mut [bool], blocks: &[u32])
    ensures size { length marks.new ≡ length marks.old }
    ensures same { (b : ℕ) → b < length marks.old
        → slice_index_or marks.new b false ≡ holds_of blocks.now b }
{
    marks.fill(false);
    for b in blocks {
        let place = *b as usize;
        if place < marks.len() {
            marks[place] = true;
        }
    }
}

// The first block that b rests on by a list and that has no mark.
fn first_listed(list: &Predecessors, marks: &[bool], b: u32) -> Option<u32>
    requires size { length marks.now ≡ list.now.blocks }
    requires known { b < list.now.blocks }
    ensures { MatchOption result
        (HoldsAbove list.now.pairs (λ p. slice_index_or marks.now p false) b)
        (λ p. IsLacking list.now.pairs (λ q. slice_index_or marks.now q false) b p) }
{
    // proof: the predecessors of b are blocks
    let _blocks = list.len();
    let above = list.above(b);
    for p in above {
        if !marks[*p as usize] {
            return Some(*p);
        }
    }
    None
}

// The lesser of two blocks, of which one may be none.
fn lesser(one: Option<u32>, other: u32) -> u32
    ensures { result ≡ lesser_number one other }
{
    match one {
        Some(block) if block < other => block,
        _ => other,
    }
}

// The least block so far, or that to which one way more leads, where it is less and has no mark.
fn lesser_lacking(marks: &[bool], least: Option<u32>, way: Option<u32>) -> Option<u32>
    requires { IfSome way (λ p. p < length marks.now) }
    ensures { result ≡ least_with (λ q. slice_index_or marks.now q false) least way }
{
    match way {
        Some(p) => {
            if marks[p as usize] {
                least
            } else {
                Some(lesser(least, p))
            }
        }
        None => least,
    }
}

// The least block that b rests on by its ways, and that has no mark: ways go in no order of blocks.
fn least_placed<P: Precedence>(of: &P, marks: &[bool], b: u32) -> Option<u32>
    requires size { length marks.now ≡ (P.shown of.now).blocks }
    requires known { b < (P.shown of.now).blocks }
    ensures { MatchOption result
        (HoldsEach ((P.shown of.now).rests b) (λ p. slice_index_or marks.now p false))
        (IsLeastLacking ((P.shown of.now).rests b) (λ q. slice_index_or marks.now q false)) }
{
    // proof: the ways lead to blocks
    let _blocks = of.len();
    let count = of.ways(b);
    let mut least: Option<u32> = None;
    for k in 0..count {
        let way = of.way(b, k);
        least = lesser_lacking(marks, least, way);
    }
    least
}

// The first block that b rests on and that has no mark.
fn first_lacking(held: HeldRef<'_>, marks: &[bool], b: u32) -> Option<u32>
    requires size { length marks.now ≡ (pairs_lent held).blocks }
    requires known { b < (pairs_lent held).blocks }
    ensures { MatchOption result
        (HoldsAbove (pairs_lent held.entry).pairs (λ p. slice_index_or marks.now p false) b)
        (λ p. IsLacking (pairs_lent held.entry).pairs (λ q. slice_index_or marks.now q false) b p) }
{
    match held {
        HeldRef::Listed(list) => first_listed(list, marks, b),
        HeldRef::Placed(grid) => {
            // proof: the pairs that a grid denotes
            let _blocks = grid.len();
            least_placed(grid, marks, b)
        }
        HeldRef::Timed(nodes) => {
            // proof: the pairs that nodes denote
            let _nodes = nodes.len();
            least_placed(nodes, marks, b)
        }
    }
}

// The first pair whose block has a mark while its predecessor has none.
pub(crate) fn first_open(held: HeldRef<'_>, marks: &[bool]) -> Option<(u32, u32)>
    requires { length marks.now ≡ (pairs_lent held).blocks }
    ensures { MatchOption result
        (IsClosed (pairs_lent held.entry).pairs (λ b. slice_index_or marks.now b false))
        (λ pair. IsFirstOpen
        (pairs_lent held.entry).pairs (λ b. slice_index_or marks.now b false) pair) }
{
    for b in 0..held.blocks() {
        if marks[b as usize] {
            if let Some(p) = first_lacking(held, marks, b) {
                return Some((b, p));
            }
        }
    }
    None
}
