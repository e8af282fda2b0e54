//! Reads a `.upit` text: first how many blocks it declares, and then its name and a value for each block, or its
//! first fault.

ghost use Rattle.std.specs.Prelude.{◌≡◌, ℕ, ◌<◌, ◌≤◌, [], Some, None, Err, length, pos, slice_index_or, unwrap_or, MatchResult, IfOk};
ghost use Rattle.fixed_worth.specs.Record.{numbered_lines};
ghost use Rattle.upit_file.specs.Body as body;
ghost use Rattle.upit_file.specs.Header.{header_fault};
ghost use Rattle.upit_file.specs.Records as spec;

use crate::body::read_body;
use crate::header::read_header;
use crate::part_reading::read_at_once;
use crate::upit::Upit;
use crate::upit_fault::UpitFault;
use fixed_worth::{Lines, MOST_BLOCKS, Micros};
use std::alloc::Global;
use std::thread::Threads;

/// The number of blocks that the header of a text declares in its first NBLOCKS record, or the first fault of the
/// header. Takes no memory.
///
/// Where this answers `n`, [`read_upit`] with that `n` finds no fault up to the line OBJECTIVE_FUNCTION.
pub fn declared_blocks(text: &[u8]) -> Result<u32, UpitFault>
    ensures value { result ≡ spec.declared_of text.now }
    ensures header { IfOk result (λ n. (n ≤ MOST_BLOCKS)
        × (header_fault n (spec.lines_in text.now) ≡ None)) }
{
    let mut lines = Lines::new(text);
    let header = read_header(&mut lines, None)?;
    Ok(header.blocks)
}

// The value of each of n blocks by the lines that are left, which so many threads read at once where they can.
fn values_left<R: Threads + Sync>(
    rt: &R,
    alloc: Global,
    lines: &mut Lines,
    n: u32,
    threads: Option<u32>,
) -> Result<Vec<Micros>, UpitFault>
    ensures { let left = body.before_end (numbered_lines lines.old.number lines.old.lines) in
        MatchResult result
        (λ values. (body.first_upit_fault n [] left ≡ None) × (length values.items ≡ n)
        × ((b : ℕ) → b < n → slice_index_or values.items b (pos 0) ≡ body.value_among left b))
        (λ e. spec.UnlessUpitMemory e (body.first_upit_fault n [] left ≡ Some e)) }
{
    match read_at_once(rt, alloc, lines.rest(), n, threads) {
        Some(values) => Ok(values),
        None => read_body(alloc, lines, n),
    }
}

/// The name of a text, and the values that it gives to n blocks: that of the block's record, and 0 where it has none.
///
/// So many threads read a part of the records each; where it isn't said how many, as many as there are processors, at
/// most eight, and none a part of less than a million bytes. Where a thread can't be made, its part is read by another
/// one. Where the blocks of the records rise, as in most files, their values are joined. Otherwise, and where a line is
/// faulty, the records are read again from the first one on, so that the answer is the same whatever the number of
/// threads, except that memory may be refused with more of them.
///
/// An error is the first fault of the text, or `NoMemory` where memory is refused. A fault of the header is answered
/// before memory is asked for.
pub fn read_upit<R: Threads + Sync>(
    rt: &R,
    alloc: Global,
    text: &[u8],
    n: u32,
    threads: Option<u32>,
) -> Result<Upit, UpitFault>
    ensures value { MatchResult result
        (λ upit. (spec.upit_fault_of n text.now ≡ None) × spec.DenotesValues n text.now upit)
        (λ e. spec.UnlessUpitMemory e (spec.upit_fault_of n text.now ≡ Some e)) }
    ensures header { (fault : UpitFault) → header_fault n (spec.lines_in text.now) ≡ Some fault
        → result ≡ Err fault }
{
    read_values(rt, alloc, text, Some(n), threads)
}

/// The name and the values of a text, as [`read_upit`] gives them for the wanted number of blocks, and where none is
/// wanted for the number that the text itself declares.
pub fn read_values<R: Threads + Sync>(
    rt: &R,
    alloc: Global,
    text: &[u8],
    wanted: Option<u32>,
    threads: Option<u32>,
) -> Result<Upit, UpitFault>
    ensures value { let n = unwrap_or wanted (spec.blocks_declared (spec.lines_in text.now)) in
        MatchResult result
        (λ upit. (spec.upit_fault_of n text.now ≡ None) × spec.DenotesValues n text.now upit)
        (λ e. spec.UnlessUpitMemory e (spec.upit_fault_of n text.now ≡ Some e)) }
    ensures header { (fault : UpitFault) → header_fault (unwrap_or wanted
        (spec.blocks_declared (spec.lines_in text.now))) (spec.lines_in text.now) ≡ Some fault
        → result ≡ Err fault }
{
    let mut lines = Lines::new(text);
    let header = read_header(&mut lines, wanted)?;
    let values = values_left(rt, alloc, &mut lines, header.blocks, threads)?;
    let name = Vec::from_slice(alloc, header.name).map_err(|_| UpitFault::NoMemory)?;
    Ok(Upit { name, values })
}
