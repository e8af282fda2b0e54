//! Parts a text between two of its lines, so that its parts can be read by themselves, each in a thread of its own.

ghost use Rattle.std.specs.Prelude.{◌≡◌, ◌++◌, ◌≤◌};
ghost use Rattle.fixed_worth.specs.Text.{lines_of};

use crate::field_reader::Fields;
use crate::line_reader::{Lines, first_line_feed};
use std::thread::{Threads, available_parallelism};

// Where nobody says how many threads there are to be: the fewest bytes that are worth one, and the most threads.
const PART_BYTES: usize = 1_000_000;

const MOST_PARTS: usize = 8;

/// A text in two parts, each with whole lines: the first part ends at the first line feed from a place on, counted from
/// 0, and at the end of the text where there is none.
pub fn cut_after_line(text: &[u8], place: usize) -> (&[u8], &[u8])
    ensures bytes { text.now ≡ result.0.now ++ result.1.now }
    ensures lines { lines_of text.now ≡ lines_of result.0.now ++ lines_of result.1.now }
{
    let place = place.min(text.len());
    let (_, back) = text.split_at(place);
    match first_line_feed(back) {
        Some(end) => text.split_at(place + end + 1),
        None => text.split_at(text.len()),
    }
}

/// Into how many parts a text of so many bytes is cut, where so many threads are asked for. Where it isn't said how
/// many, there are as many as processors, at most eight, and none for less than a million bytes.
pub fn part_count<R: Threads>(rt: &R, bytes: usize, threads: Option<u32>) -> usize {
    if let Some(threads) = threads {
        return threads as usize;
    }
    let most = (bytes / PART_BYTES).min(MOST_PARTS);
    if most < 2 {
        return 1;
    }
    match available_parallelism(rt) {
        Ok(processors) => most.min(processors.get()),
        Err(_) => 1,
    }
}

/// The block of the first record of a text, where all is well: the whole number with which a line begins before any
/// other does, and n where there is none below n. Nothing rests on it but whether the text can be read by parts.
pub fn first_block(text: &[u8], n: u32) -> u32
    ensures { result ≤ n }
{
    let mut lines = Lines::new(text);
    loop {
        match lines.next_line() {
            Ok(Some(line)) => {
                let mut fields = Fields::new(line);
                if let Some(Ok(block)) = fields.next_whole() {
                    return block.min(n as u64) as u32;
                }
            }
            _ => return n,
        }
    }
}
