//! Reading a precedence file in parts: each part of the text is read by itself, in a thread of its own where one can be
//! made, and the rows of all of them are joined.

ghost use Rattle.std.specs.Prelude.{◌≡◌, ℕ, ◌++◌, ◌<◌, ◌≤◌, List, [], IfSome, None, vec_capacity};
ghost use denote.Param.Send.{IsSync};
ghost use Rattle.fixed_worth.specs.Text.{lines_of};
ghost use Rattle.prec_file.specs.Rests.{ArePairsOf};
ghost use Rattle.prec_file.specs.Records.{fault_of, pairs_of_text};
ghost use Rattle.prec_file.specs.Parts.{IsPartRead};

use crate::limits::MOST_PAIRS;
use crate::rising::{Rising, read_rising_line};
use crate::{Predecessors, PredecessorsBuilder};
use fixed_worth::{LINE_BYTES, Lines, MOST_BLOCKS, cut_after_line, first_block, part_count};
use std::alloc::Global;
use std::thread::{Threads, join};

// Lines of a text that were read by themselves.
#[derive(Drop)]
struct Part {
    // a block that none of their blocks is below
    from: u32,
    rows: PredecessorsBuilder,
    // how many predecessors are listed, repeats counted
    listed: u64,
}

// No rows yet, the first of which will be of a block.
fn rows_from(alloc: Global, n: u32, from: u32) -> Option<Rising>
    requires few { n ≤ MOST_BLOCKS }
    requires within { from ≤ n }
    ensures rows { IfSome result (λ to. to.rows ≡ record { blocks = n; next = from; pairs = [] }) }
    ensures none { IfSome result (λ to. to.listed ≡ 0) }
    ensures room { IfSome result (λ to. LINE_BYTES ≤ vec_capacity to.row) }
{
    let mut rows = PredecessorsBuilder::new(alloc, n).ok()?;
    rows.skip_to(from).ok()?;
    let row = Vec::with_capacity(alloc, LINE_BYTES).ok()?;
    Some(Rising {
        rows,
        row,
        listed: 0,
    })
}

// Reads the lines of a text by themselves. There is no answer where one of them is faulty, whatever the lines before
// it, where their blocks don't rise, and where memory is refused.
fn read_part(alloc: Global, text: &[u8], n: u32) -> Option<Part>
    requires { n ≤ MOST_BLOCKS }
    ensures { IfSome result
        (λ part. IsPartRead n part.from (lines_of text.now) part.rows part.listed) }
{
    let from = first_block(text, n);
    let mut to = rows_from(alloc, n, from)?;
    let mut lines = Lines::new(text);
    loop {
        match lines.next_line() {
            Ok(Some(line)) => {
                let number = lines.number();
                let Ok(true) = read_rising_line(alloc, &mut to, line, n, number) else {
                    return None;
                };
            }
            Ok(None) => break,
            Err(_) => return None,
        }
    }
    Some(Part {
        from,
        rows: to.rows,
        listed: to.listed,
    })
}

// Two parts as one, where the blocks of the second come after those of the first.
fn joined(n: u32, mut front: Part, back: Part) -> Option<Part>
    ensures { (xs ys : List (List ℕ)) → IsPartRead n front.from xs front.rows front.listed
        → IsPartRead n back.from ys back.rows back.listed
        → IfSome result (λ part. IsPartRead n part.from (xs ++ ys) part.rows part.listed) }
{
    if back.from < front.rows.next() {
        return None;
    }
    let listed = front.listed.checked_add(back.listed)?;
    if listed > MOST_PAIRS as u64 || !front.rows.append(back.rows) {
        return None;
    }
    front.listed = listed;
    Some(front)
}

// Reads the lines of a text in so many parts, each in a thread of its own where one can be made.
#[cycle(halves)]
fn read_parts<R: Threads + Sync>(
    rt: &R,
    alloc: Global,
    text: &[u8],
    n: u32,
    parts: usize,
) -> Option<Part>
    requires { n ≤ MOST_BLOCKS }
    ensures { IfSome result
        (λ part. IsPartRead n part.from (lines_of text.now) part.rows part.listed) }
{
    if parts <= 1 {
        return read_part(alloc, text, n);
    }
    let low = parts / 2;
    let high = parts - low;
    let (front, back) = cut_after_line(text, text.len() / parts * low);
    let read_front = move || -> Option<Part>
        requires { IsSync R.row × (n ≤ MOST_BLOCKS) × (0 < low) }
        ensures { IfSome result
            (λ part. IsPartRead n part.from (lines_of front.entry.now) part.rows part.listed) }
    { read_parts(rt, alloc, front, n, low) };
    let read_back = move || -> Option<Part>
        requires { IsSync R.row × (n ≤ MOST_BLOCKS) × (0 < high) }
        ensures { IfSome result
            (λ part. IsPartRead n part.from (lines_of back.entry.now) part.rows part.listed) }
    { read_parts(rt, alloc, back, n, high) };
    let (a, b) = join(rt, read_front, read_back);
    joined(n, a?, b?)
}

// The pairs that a text lists, where several threads read it at once. There is no answer where one thread alone is to
// read it, where the text is faulty, where the blocks of its records don't rise, and where memory is refused.
pub(crate) fn read_at_once<R: Threads + Sync>(
    rt: &R,
    alloc: Global,
    text: &[u8],
    n: u32,
    threads: Option<u32>,
) -> Option<Predecessors>
    requires { n ≤ MOST_BLOCKS }
    ensures { IfSome result (λ r. (fault_of n text.now ≡ None) × (r.blocks ≡ n)
        × ArePairsOf (pairs_of_text text.now) r.pairs) }
{
    let parts = part_count(rt, text.len(), threads);
    if parts < 2 {
        return None;
    }
    let part = read_parts(rt, alloc, text, n, parts)?;
    match part.rows.whole() {
        Ok(found) => Some(found),
        Err(_) => None,
    }
}
