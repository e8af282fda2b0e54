//! Reads the records of block values up to the end of the text: gives a value for each block, or the first
//! fault.

ghost use Rattle.std.specs.Prelude.{◌≡◌, ℕ, ◌<◌, Some, None, [], pos, length, replicate, slice_index_or, IfOk, MatchResult};
ghost use Rattle.fixed_worth.specs.Record.{numbered_lines};
ghost use Rattle.upit_file.specs.Body as spec;
ghost use Rattle.upit_file.specs.Records.{UnlessUpitMemory};

use crate::record::{Record, read_record};
use crate::seen::first_place;
use crate::upit_fault::UpitFault;
use fixed_worth::{Lines, Micros};
use std::alloc::{AllocError, Global};

// n values of nothing.
fn zeros(alloc: Global, n: u32) -> Result<Vec<Micros>, AllocError>
    ensures { IfOk result (λ values. values.items ≡ replicate n (pos 0)) }
{
    let Some(zero) = Micros::new(0) else {
        unreachable!()
    };
    vec![in alloc; zero; n as usize]
}

// Reads the records to the end of the text: the value of each of n blocks.
pub(crate) fn read_body(alloc: Global, lines: &mut Lines, n: u32) -> Result<Vec<Micros>, UpitFault>
    ensures { let body = spec.before_end (numbered_lines lines.old.number lines.old.lines) in
        MatchResult result
        (λ values. (spec.first_upit_fault n [] body ≡ None) × (length values.items ≡ n)
        × ((b : ℕ) → b < n → slice_index_or values.items b (pos 0) ≡ spec.value_among body b))
        (λ e. UnlessUpitMemory e (spec.first_upit_fault n [] body ≡ Some e)) }
{
    let mut seen = vec![in alloc; false; n as usize].map_err(|_| UpitFault::NoMemory)?;
    let mut values = zeros(alloc, n).map_err(|_| UpitFault::NoMemory)?;
    loop {
        match lines.next_line() {
            Ok(Some(text)) => {
                let line = lines.number();
                match read_record(text, line)? {
                    Record::Skipped => {}
                    Record::End => return Ok(values),
                    Record::Value(block, value) => {
                        let place = first_place(&mut seen, block, line)?;
                        values[place] = value;
                    }
                }
            }
            Ok(None) => return Ok(values),
            Err(_) => return Err(UpitFault::Text(lines.number() + 1)),
        }
    }
}
