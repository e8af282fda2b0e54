//! The records of a precedence file: `b k p1 .. pk`, a block, how many predecessors it has, and these.

ghost use Rattle.std.specs.Prelude.{◌≡◌, ℕ, ◌≤◌, ◌+◌, ◌||◌, Bool, List, false, length, map, take, nat_le, MatchResult, MatchOption, IsTrue, vec_capacity};
ghost use Rattle.std.specs.List.{list_all, list_any};
ghost use Rattle.fixed_worth.specs.Text.{fields_of};
ghost use Rattle.fixed_worth.specs.Record.{reads, number_of, is_skipped};
ghost use Rattle.prec_file.specs.Records.{predecessors_of, shape_fault, record_fault};
ghost use Rattle.prec_file.specs.Indexes.{IsRecordOf, TellsFault};

use crate::PrecFault;
use crate::limits::MOST_PAIRS;
use fixed_worth::{Fields, LINE_BYTES, is_remark};

// A record whose blocks are known.
#[derive(Clone, Copy)]
pub(crate) struct Record {
    pub block: u32,
    // the number of predecessors that it claims
    pub count: u64,
    // the number of those that it has
    pub found: u64,
}

// The predecessors of a record.
#[derive(Clone, Copy)]
struct RowFound {
    found: u64,
    // the record's block or one of these isn't known
    unknown: bool,
}

// Reads a block's predecessors. A field that is no number comes before an unknown block, so the fields are read to the
// end.
fn read_row(
    row: &mut Vec<u32>,
    mut fields: Fields,
    block: u64,
    n: u32,
    line: u64,
) -> Result<RowFound, PrecFault>
    requires few { length fields ≤ LINE_BYTES }
    requires room { LINE_BYTES ≤ vec_capacity row.old }
    ensures { MatchResult result
        (λ r. IsTrue (list_all reads (map (λ f. f.text) fields.entry))
        × (r.unknown ≡ (nat_le n block
        || list_any (nat_le n) (map number_of (map (λ f. f.text) fields.entry))))
        × (r.found ≡ length fields.entry)
        × (r.unknown ≡ false → row.new.items ≡ map number_of (map (λ f. f.text) fields.entry))
        × (LINE_BYTES ≤ vec_capacity row.new))
        (λ e. (e ≡ PrecFault.Number line)
        × (list_all reads (map (λ f. f.text) fields.entry) ≡ false)) }
{
    let mut unknown = block >= n as u64;
    let mut found: u64 = 0;
    row.clear();
    while let Some(read) = fields.next_whole() {
        let Ok(predecessor) = read else {
            return Err(PrecFault::Number(line));
        };
        if predecessor < n as u64 {
            row.push_reserved(predecessor as u32);
        } else {
            unknown = true;
        }
        found += 1;
    }
    Ok(RowFound { found, unknown })
}

// What is wrong with a line whose first field is no number, unless it is a remark: a second field that is missing comes
// before that.
fn fault_before_numbers(text: &[u8], line: u64) -> Option<PrecFault>
    requires short { length text.now ≤ LINE_BYTES }
    requires unread { list_all reads (take 1 (fields_of text.now)) ≡ false }
    ensures { MatchOption result
        (IsTrue (is_skipped (fields_of text.now)))
        (λ e. (is_skipped (fields_of text.now) ≡ false)
        × ((n : ℕ) → shape_fault n line (fields_of text.now) ≡ Some e)) }
{
    let mut fields = Fields::new(text);
    let first = fields.next()?;
    if is_remark(first.text) {
        return None;
    }
    match fields.next() {
        None => Some(PrecFault::Text(line)),
        Some(_) => Some(PrecFault::Number(line)),
    }
}

// Reads a line that may be a record, and its predecessors to a row.
pub(crate) fn read_record(
    row: &mut Vec<u32>,
    text: &[u8],
    n: u32,
    line: u64,
) -> Result<Option<Record>, PrecFault>
    requires short { length text.now ≤ LINE_BYTES }
    requires room { LINE_BYTES ≤ vec_capacity row.old }
    ensures { MatchResult result
        (λ given. MatchOption given
        (IsTrue (is_skipped (fields_of text.now)) × (LINE_BYTES ≤ vec_capacity row.new))
        (λ r. IsRecordOf n line (fields_of text.now) r.block r.count r.found
        × (row.new.items ≡ predecessors_of (fields_of text.now))
        × (LINE_BYTES ≤ vec_capacity row.new)))
        (λ e. (is_skipped (fields_of text.now) ≡ false)
        × (shape_fault n line (fields_of text.now) ≡ Some e)) }
{
    let mut fields = Fields::new(text);
    let Some(first) = fields.next_whole() else {
        return Ok(None);
    };
    let Ok(block) = first else {
        return fault_before_numbers(text, line).map_or(Ok(None), Err);
    };
    let Some(second) = fields.next_whole() else {
        return Err(PrecFault::Text(line));
    };
    let Ok(count) = second else {
        return Err(PrecFault::Number(line));
    };
    let listed = read_row(row, fields, block, n, line)?;
    if listed.unknown {
        return Err(PrecFault::UnknownBlock(line));
    }
    Ok(Some(Record {
        block: block as u32,
        count,
        found: listed.found,
    }))
}

// What is wrong with the record of a block that had none before, where so many predecessors were listed before it.
pub(crate) fn counted(read: Record, before: u64, line: u64) -> Result<(), PrecFault>
    requires before { before ≤ MOST_PAIRS }
    requires found { read.found ≤ LINE_BYTES }
    ensures { (n : ℕ) (fields : List (List ℕ)) (had : ℕ → Bool)
        → IsRecordOf n line fields read.block read.count read.found → had read.block ≡ false
        → MatchResult result
        (λ _. (record_fault n had before line fields ≡ None) × (before + read.found ≤ MOST_PAIRS))
        (λ e. TellsFault e (record_fault n had before line fields)) }
{
    if read.count != read.found {
        return Err(PrecFault::WrongCount(line));
    }
    if before + read.found > MOST_PAIRS as u64 {
        return Err(PrecFault::TooMany(line));
    }
    Ok(())
}
