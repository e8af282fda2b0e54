//! Reading the records of block values in parts: each part of the text is read by itself, in a thread of its own where
//! one can be made, and the values of all of them are joined.

ghost use Rattle.std.specs.Prelude.{◌≡◌, ℕ, ◌-◌, ◌++◌, ◌<◌, ◌≤◌, ◌∷◌, List, [], IfSome, None, length, pos, replicate, slice_index_or};
ghost use denote.Param.Send.{IsSync};
ghost use Rattle.fixed_worth.specs.Text.{lines_of};
ghost use Rattle.fixed_worth.specs.Record.{numbered_lines};
ghost use Rattle.upit_file.specs.Body.{before_end, first_upit_fault, value_among};
ghost use Rattle.upit_file.specs.Parts.{IsPartRead};

use crate::record::{Record, read_record};
use fixed_worth::{Lines, Micros, cut_after_line, first_block, part_count};
use std::alloc::Global;
use std::thread::{Threads, join};

// The most values that a part holds for each of its bytes: where blocks are far apart, parts would take more memory
// than they are worth.
const VALUES_OF_BYTE: u64 = 16;

// Records that were read by themselves.
#[derive(Drop)]
struct Part {
    // the values of blocks from a given one on, each of which comes after those of the parts before
    values: Vec<Micros>,
    // whether the text ends among them
    ended: bool,
}

// Adds values of nothing until there are so many.
fn fill(values: &mut Vec<Micros>, size: usize) -> Option<()>
    requires { length values.old.items ≤ size }
    ensures { IfSome result (λ _. values.new.items
        ≡ values.old.items ++ replicate (size - length values.old.items) (pos 0)) }
{
    let Some(zero) = Micros::new(0) else {
        unreachable!()
    };
    values.resize(size, zero).ok()
}

// Adds a value at its place, and values of nothing before it. There is no answer where the place is taken, where it is
// too far for a part of so many bytes, and where memory is refused.
fn add_value(values: &mut Vec<Micros>, place: u64, value: Micros, bytes: usize) -> Option<()>
    ensures { IfSome result (λ _. (length values.old.items ≤ place) × (values.new.items
        ≡ (values.old.items ++ replicate (place - length values.old.items) (pos 0))
        ++ value ∷ [])) }
{
    if place < values.len() as u64 || place / VALUES_OF_BYTE > bytes as u64 {
        return None;
    }
    fill(values, place as usize)?;
    values.push(value).ok()
}

// Reads the lines of a text by themselves, from a block on that none of theirs is to be below. There is no answer where
// one of them is faulty, whatever the lines before it, where their blocks don't rise, and where memory is refused.
fn read_part(alloc: Global, text: &[u8], n: u32, from: u32) -> Option<Part>
    requires { from ≤ n }
    ensures { IfSome result
        (λ part. IsPartRead n from (lines_of text.now) part.values.items part.ended) }
{
    let mut values = Vec::new(alloc);
    let mut lines = Lines::new(text);
    loop {
        let Ok(next) = lines.next_line() else {
            return None;
        };
        let Some(line) = next else {
            return Some(Part {
                values,
                ended: false,
            });
        };
        let Ok(record) = read_record(line, lines.number()) else {
            return None;
        };
        match record {
            Record::Skipped => {}
            Record::End => return Some(Part {
                values,
                ended: true,
            }),
            Record::Value(block, value) => {
                if block >= n as u64 {
                    return None;
                }
                let place = block.checked_sub(from as u64)?;
                add_value(&mut values, place, value, text.len())?;
            }
        }
    }
}

// Two parts as one, of the blocks from one on and from a later one on. Where the text ends in the first part, nothing
// of the second is looked at.
fn joined(mut front: Part, from: u32, back: Option<Part>, later: u32) -> Option<Part>
    ensures { (n : ℕ) (xs ys : List (List ℕ))
        → IsPartRead n from xs front.values.items front.ended
        → IfSome back (λ b. IsPartRead n later ys b.values.items b.ended)
        → IfSome result (λ part. IsPartRead n from (xs ++ ys) part.values.items part.ended) }
{
    if front.ended {
        return Some(front);
    }
    let mut back = back?;
    let place = later.checked_sub(from)? as usize;
    if place < front.values.len() {
        return None;
    }
    fill(&mut front.values, place)?;
    front.values.append(&mut back.values).ok()?;
    front.ended = back.ended;
    Some(front)
}

// Reads the lines of a text in so many parts, each in a thread of its own where one can be made.
#[cycle(halves)]
fn read_parts<R: Threads + Sync>(
    rt: &R,
    alloc: Global,
    text: &[u8],
    n: u32,
    from: u32,
    parts: usize,
) -> Option<Part>
    requires { from ≤ n }
    ensures { IfSome result
        (λ part. IsPartRead n from (lines_of text.now) part.values.items part.ended) }
{
    if parts <= 1 {
        return read_part(alloc, text, n, from);
    }
    let low = parts / 2;
    let high = parts - low;
    let (front, back) = cut_after_line(text, text.len() / parts * low);
    let later = first_block(back, n);
    let read_front = move || -> Option<Part>
        requires { IsSync R.row × (from ≤ n) × (0 < low) }
        ensures { IfSome result
            (λ part. IsPartRead n from (lines_of front.entry.now) part.values.items part.ended) }
    { read_parts(rt, alloc, front, n, from, low) };
    let read_back = move || -> Option<Part>
        requires { IsSync R.row × (later ≤ n) × (0 < high) }
        ensures { IfSome result
            (λ part. IsPartRead n later (lines_of back.entry.now) part.values.items part.ended) }
    { read_parts(rt, alloc, back, n, later, high) };
    let (a, b) = join(rt, read_front, read_back);
    joined(a?, from, b, later)
}

// The values of n blocks by the lines of a text after the header, where several threads read it at once. There is no
// answer where one thread alone is to read it, where a line before the end is faulty, where the blocks of records don't
// rise, and where memory is refused.
pub(crate) fn read_at_once<R: Threads + Sync>(
    rt: &R,
    alloc: Global,
    text: &[u8],
    n: u32,
    threads: Option<u32>,
) -> Option<Vec<Micros>>
    ensures { IfSome result (λ values. (k : ℕ)
        → let body = before_end (numbered_lines k (lines_of text.now)) in
        (first_upit_fault n [] body ≡ None) × (length values.items ≡ n)
        × ((b : ℕ) → b < n → slice_index_or values.items b (pos 0) ≡ value_among body b)) }
{
    let parts = part_count(rt, text.len(), threads);
    if parts < 2 {
        return None;
    }
    let part = read_parts(rt, alloc, text, n, 0, parts)?;
    let mut values = part.values;
    fill(&mut values, n as usize)?;
    Some(values)
}
