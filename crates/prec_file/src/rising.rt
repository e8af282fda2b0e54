//! Reading a precedence file whose records go by their blocks, as in most files: straight into rows.

ghost use Rattle.std.specs.Prelude.{◌≡◌, ℕ, ◌≤◌, Bool, true, length, vec_capacity, MatchResult, MatchOption};
ghost use Rattle.fixed_worth.specs.Text.{fields_of};
ghost use Rattle.prec_file.specs.Rests.{ArePairsOf};
ghost use Rattle.prec_file.specs.Records.{record_fault, fault_of, pairs_of_text, UnlessMemory};
ghost use Rattle.prec_file.specs.Indexes.{AreNew, IsLineRead, TellsFault};

use crate::limits::MOST_PAIRS;
use crate::records::{counted, read_record};
use crate::{PrecFault, Predecessors, PredecessorsBuilder};
use fixed_worth::{LINE_BYTES, Lines, MOST_BLOCKS};
use std::alloc::Global;

// What is read so far.
#[derive(Drop)]
pub(crate) struct Rising {
    pub rows: PredecessorsBuilder,
    // the predecessors of the record that was read last
    pub row: Vec<u32>,
    // how many predecessors are listed, repeats counted
    pub listed: u64,
}

// Reads a line and lists its row, or answers false where its block isn't above those of the lines before.
pub(crate) fn read_rising_line(
    alloc: Global,
    to: &mut Rising,
    text: &[u8],
    n: u32,
    line: u64,
) -> Result<bool, PrecFault>
    requires short { length text.now ≤ LINE_BYTES }
    requires blocks { to.old.rows.blocks ≡ n }
    requires few { to.old.listed ≤ MOST_PAIRS }
    requires kept { length to.old.rows.pairs ≤ to.old.listed }
    requires room { LINE_BYTES ≤ vec_capacity to.old.row }
    ensures { MatchResult result
        (λ rises. rises ≡ true
        → IsLineRead n line (fields_of text.now) to.old.rows to.new.rows to.old.listed to.new.listed
        × (LINE_BYTES ≤ vec_capacity to.new.row))
        (λ e. (had : ℕ → Bool) → AreNew to.old.rows.next had
        → TellsFault e (record_fault n had to.old.listed line (fields_of text.now))) }
{
    let Some(record) = read_record(&mut to.row, text, n, line)? else {
        return Ok(true);
    };
    if record.block < to.rows.next() {
        return Ok(false);
    }
    counted(record, to.listed, line)?;
    let Ok(()) = to.rows.skip_to(record.block) else {
        return Err(PrecFault::NoMemory);
    };
    let Ok(()) = to.rows.push_row(alloc, &to.row) else {
        return Err(PrecFault::NoMemory);
    };
    to.listed += record.found;
    Ok(true)
}

// The pairs that a text lists, where the blocks of its records rise.
pub(crate) fn read_rising(
    alloc: Global,
    text: &[u8],
    n: u32,
) -> Result<Option<Predecessors>, PrecFault>
    requires { n ≤ MOST_BLOCKS }
    ensures { MatchResult result
        (λ found. MatchOption found
        (Unit {0})
        (λ r. (fault_of n text.now ≡ None) × (r.blocks ≡ n)
        × ArePairsOf (pairs_of_text text.now) r.pairs))
        (λ e. UnlessMemory e (fault_of n text.now ≡ Some e)) }
{
    let Ok(rows) = PredecessorsBuilder::new(alloc, n) else {
        return Err(PrecFault::NoMemory);
    };
    let Ok(row) = Vec::with_capacity(alloc, LINE_BYTES) else {
        return Err(PrecFault::NoMemory);
    };
    let mut to = Rising {
        rows,
        row,
        listed: 0,
    };
    let mut lines = Lines::new(text);
    loop {
        match lines.next_line() {
            Ok(Some(line)) => {
                let number = lines.number();
                if !read_rising_line(alloc, &mut to, line, n, number)? {
                    return Ok(None);
                }
            }
            Ok(None) => break,
            Err(_) => return Err(PrecFault::Text(lines.number() + 1)),
        }
    }
    match to.rows.whole() {
        Ok(found) => Ok(Some(found)),
        Err(_) => Err(PrecFault::NoMemory),
    }
}
