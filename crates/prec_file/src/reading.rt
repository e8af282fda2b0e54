//! Reads a precedence file: gives the pairs that its records list, as a list, with both indexes or by block alone, or
//! the first fault of the text.

ghost use Rattle.std.specs.Prelude.{◌≡◌, ◌≤◌, ◌++◌, false, length, slice_index_or, vec_capacity, All, MatchResult};
ghost use Rattle.fixed_worth.specs.Text.{fields_of};
ghost use Rattle.prec_file.specs.Rests.{ArePairsOf, IsKnown};
ghost use Rattle.prec_file.specs.Records.{record_fault, pairs_in, fault_of, pairs_of_text, UnlessMemory};
ghost use Rattle.prec_file.specs.Indexes.{marks_after, TellsFault};

use crate::limits::MOST_PAIRS;
use crate::pair_order::add_pairs;
use crate::part_reading::read_at_once;
use crate::records::{counted, read_record};
use crate::rising::read_rising;
use crate::{ListedPairs, PrecFault, Predecessors, Rests};
use fixed_worth::{LINE_BYTES, Lines, MOST_BLOCKS};
use std::alloc::Global;
use std::thread::Threads;

// Reads a line, adds its pairs, and marks its block as seen. The row has the predecessors in the meantime.
fn read_line(
    seen: &mut [bool],
    pairs: &mut Vec<(u32, u32)>,
    row: &mut Vec<u32>,
    text: &[u8],
    n: u32,
    line: u64,
) -> Result<(), PrecFault>
    requires short { length text.now ≤ LINE_BYTES }
    requires all { length seen.old ≡ n }
    requires few { length pairs.old.items ≤ MOST_PAIRS }
    requires room { LINE_BYTES ≤ vec_capacity row.old }
    ensures { MatchResult result
        (λ _. (record_fault n (λ b. slice_index_or seen.old b false) (length pairs.old.items) line
        (fields_of text.now) ≡ None)
        × (pairs.new.items ≡ pairs.old.items ++ pairs_in (fields_of text.now))
        × (length pairs.new.items ≤ MOST_PAIRS)
        × (seen.new ≡ marks_after (fields_of text.now) seen.old)
        × (LINE_BYTES ≤ vec_capacity row.new))
        (λ e. TellsFault e (record_fault n (λ b. slice_index_or seen.old b false)
        (length pairs.old.items) line (fields_of text.now))) }
{
    let before = pairs.as_slice().len();
    let Some(record) = read_record(row, text, n, line)? else {
        return Ok(());
    };
    if seen[record.block as usize] {
        return Err(PrecFault::Repeated(line));
    }
    counted(record, before as u64, line)?;
    let Ok(()) = add_pairs(pairs, record.block, row) else {
        return Err(PrecFault::NoMemory);
    };
    seen[record.block as usize] = true;
    Ok(())
}

// The pairs that a text lists, in its order.
fn read_pairs(alloc: Global, text: &[u8], n: u32) -> Result<Vec<(u32, u32)>, PrecFault>
    requires { n ≤ MOST_BLOCKS }
    ensures { MatchResult result
        (λ pairs. (fault_of n text.now ≡ None) × (pairs.items ≡ pairs_of_text text.now)
        × (length pairs.items ≤ MOST_PAIRS) × All (IsKnown n) pairs.items)
        (λ e. UnlessMemory e (fault_of n text.now ≡ Some e)) }
{
    let mut seen = vec![in alloc; false; n as usize].map_err(|_| PrecFault::NoMemory)?;
    let Ok(mut row) = Vec::with_capacity(alloc, LINE_BYTES) else {
        return Err(PrecFault::NoMemory);
    };
    let mut pairs = Vec::new(alloc);
    let mut lines = Lines::new(text);
    loop {
        match lines.next_line() {
            Ok(Some(line)) => {
                let number = lines.number();
                read_line(seen.as_mut_slice(), &mut pairs, &mut row, line, n, number)?;
            }
            Ok(None) => return Ok(pairs),
            Err(_) => return Err(PrecFault::Text(lines.number() + 1)),
        }
    }
}

/// The pairs that a precedence file lists for n blocks, at most 2^24, as it lists them: those of [`read_prec`] before
/// they are put in order.
///
/// # Errors
/// Those of [`read_prec`].
pub fn read_listed(alloc: Global, text: &[u8], n: u32) -> Result<ListedPairs, PrecFault>
    requires { n ≤ MOST_BLOCKS }
    ensures { MatchResult result
        (λ l. (fault_of n text.now ≡ None) × (l.blocks ≡ n) × (l.pairs ≡ pairs_of_text text.now))
        (λ e. UnlessMemory e (fault_of n text.now ≡ Some e)) }
{
    let pairs = read_pairs(alloc, text, n)?;
    Ok(ListedPairs::of(n, pairs))
}

/// The pairs that a precedence file lists for n blocks, at most 2^24.
///
/// Each line is a record `b k p1 .. pk`: block b rests on its k predecessors. Lines without a field, and those whose
/// first field begins with `%`, are skipped. A block with no record has no predecessor. Pairs of a block with itself
/// and repeats are dropped.
///
/// # Errors
/// That of the first faulty line, and of its faults the first in this order: `Text` for more than 65,536 bytes or fewer
/// than two fields, `Number`, `UnknownBlock`, `Repeated`, `WrongCount`, `TooMany`. `NoMemory` where a growth was
/// refused.
pub fn read_prec(alloc: Global, text: &[u8], n: u32) -> Result<Rests, PrecFault>
    requires { n ≤ MOST_BLOCKS }
    ensures { MatchResult result
        (λ r. (fault_of n text.now ≡ None) × (r.blocks ≡ n)
        × ArePairsOf (pairs_of_text text.now) r.pairs)
        (λ e. UnlessMemory e (fault_of n text.now ≡ Some e)) }
{
    if let Some(predecessors) = read_rising(alloc, text, n)? {
        return predecessors
            .into_rests(alloc)
            .map_err(|_| PrecFault::NoMemory);
    }
    let listed = read_listed(alloc, text, n)?;
    listed.into_rests(alloc).map_err(|_| PrecFault::NoMemory)
}

/// Reads the text to each block's predecessors, without the pairs and their index by predecessor. The bytes are freed
/// before pairs are put in order.
///
/// Where the blocks of the records rise, as in most files, the pairs are never held but as the result holds them.
/// Otherwise the text is read again.
///
/// So many threads read a part of the text each; where it isn't said how many, as many as there are processors, at most
/// eight, and none a part of less than a million bytes. Where a thread can't be made, its part is read by another one.
/// Where the parts don't make a whole without fault, the text is read again from its beginning, so that the answer is
/// the same whatever the number of threads, except that memory may be refused with more of them.
///
/// # Errors
/// Those of [`read_prec`].
pub fn read_predecessors<R: Threads + Sync>(
    rt: &R,
    alloc: Global,
    text: Vec<u8>,
    n: u32,
    threads: Option<u32>,
) -> Result<Predecessors, PrecFault>
    requires { n ≤ MOST_BLOCKS }
    ensures { MatchResult result
        (λ r. (fault_of n text.items ≡ None) × (r.blocks ≡ n)
        × ArePairsOf (pairs_of_text text.items) r.pairs)
        (λ e. UnlessMemory e (fault_of n text.items ≡ Some e)) }
{
    if let Some(predecessors) = read_at_once(rt, alloc, text.as_slice(), n, threads) {
        return Ok(predecessors);
    }
    if let Some(predecessors) = read_rising(alloc, text.as_slice(), n)? {
        return Ok(predecessors);
    }
    let listed = read_listed(alloc, text.as_slice(), n)?;
    drop(text);
    listed
        .into_predecessors(alloc)
        .map_err(|_| PrecFault::NoMemory)
}
