//! Makes one list of the pairs, whoever holds them, or hands out the list that is there: the very pairs, in order and
//! each once.

ghost use Rattle.std.specs.Prelude.{◌≡◌, ◌+◌, ◌<◌, ◌≤◌, ℕ, List, [], ◌∷◌, ◌++◌, IfOk, length};
ghost use Rattle.prec_file.specs.declared.limits.TheConstants.{MOST_PAIRS};
ghost use Rattle.places.specs.Ways.{IsPrecedence};
ghost use Rattle.held_pairs.specs.HeldLists.{AddsWays, ListsBelow};

use crate::pairs::HeldPairs;
use places::Precedence;
use prec_file::{ListedPairs, MOST_PAIRS, Predecessors, Rests};
use std::alloc::{AllocError, Global};

// Adds a pair, where there are few enough.
fn add(pairs: &mut Vec<(u32, u32)>, b: u32, p: u32) -> Result<(), AllocError>
    requires { length pairs.old.items ≤ MOST_PAIRS }
    ensures added { IfOk result (λ _. pairs.new.items ≡ pairs.old.items ++ (b, p) ∷ []) }
    ensures few { IfOk result (λ _. length pairs.new.items ≤ MOST_PAIRS) }
{
    if pairs.len() >= MOST_PAIRS as usize {
        return Err(AllocError);
    }
    pairs.push((b, p))?;
    Ok(())
}

// Adds the pair to which a way of a block leads, if it leads to one.
fn add_way<P: Precedence>(
    held: &P,
    b: u32,
    way: u32,
    pairs: &mut Vec<(u32, u32)>,
) -> Result<(), AllocError>
    requires block { b < (P.shown held.now).blocks }
    requires inside { way < (P.shown held.now).ways b }
    requires few { length pairs.old.items ≤ MOST_PAIRS }
    ensures added { IfOk result (λ _. (old : List (ℕ × ℕ))
        → AddsWays (P.shown held.now) b way old pairs.old.items
        → AddsWays (P.shown held.now) b (way + 1) old pairs.new.items) }
    ensures few { IfOk result (λ _. length pairs.new.items ≤ MOST_PAIRS) }
{
    match held.way(b, way) {
        Some(p) => {
            add(pairs, b, p)?;
            Ok(())
        }
        None => Ok(()),
    }
}

// Adds the pairs of a block, way by way.
fn add_ways<P: Precedence>(held: &P, b: u32, pairs: &mut Vec<(u32, u32)>) -> Result<(), AllocError>
    requires block { b < (P.shown held.now).blocks }
    requires few { length pairs.old.items ≤ MOST_PAIRS }
    ensures added { IfOk result (λ _. AddsWays (P.shown held.now) b ((P.shown held.now).ways b)
        pairs.old.items pairs.new.items) }
    ensures few { IfOk result (λ _. length pairs.new.items ≤ MOST_PAIRS) }
{
    for way in 0..held.ways(b) {
        add_way(held, b, way, pairs)?;
    }
    Ok(())
}

// The pairs of all blocks, as the ways lead to them.
fn collected<P: Precedence>(alloc: Global, held: &P) -> Result<Vec<(u32, u32)>, AllocError>
    requires { IsPrecedence (P.shown held.now) }
    ensures pairs { IfOk result
        (λ v. ListsBelow (P.shown held.now) (P.shown held.now).blocks v.items) }
    ensures few { IfOk result (λ v. length v.items ≤ MOST_PAIRS) }
{
    let mut pairs: Vec<(u32, u32)> = Vec::new(alloc);
    for b in 0..held.len() {
        add_ways(held, b, &mut pairs)?;
    }
    Ok(pairs)
}

/// The list of pairs, by the ways of whatever holds them: where a list does, this is another.
///
/// # Errors
/// Where memory is refused, and where there are more pairs than a list may have.
pub fn list_of(alloc: Global, pairs: &HeldPairs) -> Result<Predecessors, AllocError>
    ensures { IfOk result (λ list. list ≡ pairs.now) }
{
    // proof: what is known of all pairs, and of every precedence
    let _pairs = pairs.len();
    let held = pairs.as_ref();
    let blocks = held.blocks();
    let _ways = Precedence::len(&held);
    let listed = collected(alloc, &held)?;
    let list = ListedPairs::of(blocks, listed).into_predecessors(alloc)?;
    Ok(list)
}

/// The list of pairs that a list held: no other is made. Of other holders it is that of [`list_of`], and these are
/// freed.
///
/// # Errors
/// Those of [`list_of`], where no list holds the pairs.
pub fn into_list(alloc: Global, pairs: HeldPairs) -> Result<Predecessors, AllocError>
    ensures { IfOk result (λ list. list ≡ pairs) }
{
    match pairs.own_list() {
        Ok(list) => Ok(list),
        Err(held) => list_of(alloc, &held),
    }
}

/// The pairs with their index by predecessor, by the ways of whatever holds them.
///
/// # Errors
/// Those of [`list_of`], and where memory is refused.
pub fn rests_of(alloc: Global, pairs: &HeldPairs) -> Result<Rests, AllocError>
    ensures { IfOk result (λ rests. rests ≡ pairs.now) }
{
    let list = list_of(alloc, pairs)?;
    list.into_rests(alloc)
}
