//! Counts the pairs that lead from a block of a design to a predecessor outside it, and gives the first of them; also
//! counts the design's blocks.

ghost use Rattle.std.specs.Prelude.{◌≡◌, ℕ, ◌+◌, ◌<◌, ◌≤◌, ◌^◌, All, Bool, false, IsTrue, cond, List, [], ◌∷◌, ◌++◌, length, IfOk, OnOk};
ghost use Rattle.prec_file.specs.Rests.{IsKnown};
ghost use Rattle.places.specs.Implied.{implied, pairs_below};
ghost use Rattle.ordered_group.specs.Sets.{count_in};
ghost use Rattle.design_value.specs.Sums.{marked_in};
ghost use Rattle.design_value.specs.OpenPairs.{AreOpen, leads_out};

use crate::rows::{leads_from, row_at};
use fixed_worth::MOST_BLOCKS;
use held_pairs::HeldPairs;
use places::Precedence;
use std::alloc::{AllocError, Global};

/// How many pairs (b, p) lead from a block b of a set to a predecessor p outside, and the first 20 of them, by b and
/// then by p.
#[derive(Drop)]
pub struct OpenPairs {
    /// How many there are.
    pub count: u64,
    /// The first of them.
    pub first: Vec<(u32, u32)>,
}

// The most pairs that are told.
const MOST_TOLD: usize = 20;

/// Whether no pair leads out of a set of marked blocks, whoever holds the pairs. Takes no memory.
pub fn is_closed<P: Precedence>(held: &P, marks: &[bool]) -> bool
    requires { length marks.now ≡ (P.shown held.now).blocks }
    ensures { IsTrue result → (b p : ℕ) → IsTrue ((P.shown held.now).rests b p)
        → leads_out (marked_in marks.now) (b, p) ≡ false }
{
    for b in 0..held.len() {
        if leads_from(held, marks, b) {
            return false;
        }
    }
    true
}

// Takes in a pair, which leads out or doesn't.
fn pass_pair(leading: &mut OpenPairs, pair: (u32, u32), leads: bool) -> Result<(), AllocError>
    requires { leading.old.count < 2 ^ 37 }
    ensures all { OnOk result ((design : ℕ → Bool) (ps : List (ℕ × ℕ))
        → leads_out design pair ≡ leads
        → AreOpen design ps leading.old.count leading.old.first.items
        → AreOpen design (ps ++ pair ∷ []) leading.new.count leading.new.first.items) }
    ensures few { OnOk result (leading.new.count ≤ leading.old.count + 1) }
{
    if !leads {
        return Ok(());
    }
    leading.count += 1;
    if leading.first.len() >= MOST_TOLD {
        return Ok(());
    }
    leading.first.push(pair)?;
    Ok(())
}

// Whether b is marked, and p isn't.
fn leads_out_of(marks: &[bool], b: u32, p: u32) -> bool
    requires block { b < length marks.now }
    requires predecessor { p < length marks.now }
    ensures { result ≡ leads_out (marked_in marks.now) (b, p) }
{
    marks[b as usize] && !marks[p as usize]
}

// Takes in pairs of known blocks, which are the next ones.
fn pass_row(leading: &mut OpenPairs, marks: &[bool], row: &[(u32, u32)]) -> Result<(), AllocError>
    requires known { All (IsKnown (length marks.now)) row.now }
    requires room { leading.old.count + length row.now ≤ 2 ^ 37 }
    ensures { OnOk result ((ps : List (ℕ × ℕ))
        → AreOpen (marked_in marks.now) ps leading.old.count leading.old.first.items
        → AreOpen (marked_in marks.now)
        (ps ++ row.now) leading.new.count leading.new.first.items) }
{
    for pair in row {
        let leads = leads_out_of(marks, pair.0, pair.1);
        pass_pair(leading, *pair, leads)?;
    }
    Ok(())
}

// Takes in the pairs of a block, which are the next ones. No list of them is made where none leads out.
fn pass_block<P: Precedence>(
    alloc: Global,
    leading: &mut OpenPairs,
    marks: &[bool],
    b: u32,
    held: &P,
) -> Result<(), AllocError>
    requires known { b < (P.shown held.now).blocks }
    requires all { length marks.now ≡ (P.shown held.now).blocks }
    requires few { leading.old.count ≤ 2 ^ 36 }
    requires before { AreOpen (marked_in marks.now)
        (pairs_below (P.shown held.now).rests (P.shown held.now).blocks b)
        leading.old.count leading.old.first.items }
    ensures { OnOk result (AreOpen (marked_in marks.now)
        (pairs_below (P.shown held.now).rests (P.shown held.now).blocks (b + 1))
        leading.new.count leading.new.first.items) }
{
    // proof: there are few blocks
    let _blocks = held.len();
    if !leads_from(held, marks, b) {
        return Ok(());
    }
    let row = row_at(alloc, held, b)?;
    pass_row(leading, marks, row.as_slice())?;
    Ok(())
}

// The pairs that lead out of a set of marked blocks, whoever holds them.
fn open_among<P: Precedence>(
    alloc: Global,
    marks: &[bool],
    held: &P,
) -> Result<OpenPairs, AllocError>
    requires all { length marks.now ≡ (P.shown held.now).blocks }
    requires few { length (implied (P.shown held.now)).pairs ≤ 2 ^ 36 }
    ensures { IfOk result (λ leading. AreOpen (marked_in marks.now)
        (implied (P.shown held.now)).pairs leading.count leading.first.items) }
{
    let mut leading = OpenPairs {
        count: 0,
        first: Vec::new(alloc),
    };
    for b in 0..held.len() {
        pass_block(alloc, &mut leading, marks, b, held)?;
    }
    Ok(leading)
}

/// The pairs that lead out of a set of marked blocks. A list is made of the pairs of a block of which one leads out,
/// and of no others.
///
/// # Errors
/// Memory was refused.
pub fn open_pairs_of(
    alloc: Global,
    marks: &[bool],
    predecessors: &HeldPairs,
) -> Result<OpenPairs, AllocError>
    requires { length marks.now ≡ predecessors.now.blocks }
    ensures { IfOk result (λ leading. AreOpen
        (marked_in marks.now) predecessors.now.pairs leading.count leading.first.items) }
{
    // proof: what is known of all pairs, and of every precedence
    let _pairs = predecessors.len();
    let held = predecessors.as_ref();
    let _blocks = held.blocks();
    let _ways = Precedence::len(&held);
    open_among(alloc, marks, &held)
}

// One for a block that is marked.
fn one_if(mark: bool) -> u32
    ensures { result ≡ cond mark 1 0 }
{
    if mark { 1 } else { 0 }
}

/// How many blocks are marked.
pub fn count_marked(marks: &[bool]) -> u32
    requires { length marks.now ≤ MOST_BLOCKS }
    ensures { result ≡ count_in (marked_in marks.now) (length marks.now) }
{
    let mut count: u32 = 0;
    for b in 0..marks.len() {
        count += one_if(marks[b]);
    }
    count
}
