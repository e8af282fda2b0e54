//! Gives the lines of a text one after another, with their numbers and without their line feeds, and refuses a line
//! that is too long.

ghost use Rattle.std.specs.Prelude.{◌≡◌, ◌+◌, ◌<◌, ◌≤◌, ◌^◌, ◌==◌, [], ◌∷◌, length, MatchResult, MatchOption, position, drop};
ghost use Rattle.std.specs.List.{position_or_len};
ghost use Rattle.fixed_worth.specs.Text.{lines_of, Left, BeginsTooLong};

use crate::limits::LINE_BYTES;
use memchr::memchr;
use std::marker::Model;

/// Why a text is not cut further.
#[derive(Clone, Copy, Debug, PartialEq, Eq)]
pub enum TextFault {
    /// The next line has more than 65,536 bytes, its line feed not counted.
    LineTooLong,
}

/// The lines of a text, one after another: each ends at a line feed or at the end of the text.
///
/// A text that ends at a line feed has no line after it. A carriage return is left to the fields, which drop it.
#[derive(Drop)]
pub struct Lines<'a> {
    rest: &'a [u8],
    number: u64,
}

impl<'a> Model for Lines<'a> {
    ghost Value = { Left };

    ghost view = { λ s. record { lines = lines_of s.rest.now; number = s.number } };

    ghost invariant = { λ s. s.number + length s.rest.now < 2 ^ 63 };
}

/// The place of the first line feed of a text, counted from 0, if it has one.
pub fn first_line_feed(text: &[u8]) -> Option<usize>
    ensures { result ≡ position (λ b. b == 10) text.now }
{
    memchr(b'\n', text)
}

// How many bytes stand before the first line feed.
#[tactic(auto, using(crate::proofs::Cuts::unwrap_position))]
fn line_length(text: &[u8]) -> usize
    ensures { result ≡ position_or_len (λ b. b == 10) text.now }
{
    first_line_feed(text).unwrap_or(text.len())
}

/// A text without its first byte; an empty text is left as it is.
pub fn after_first_line(text: &[u8]) -> &[u8]
    ensures { result.now ≡ drop 1 text.now }
{
    match text {
        [] => text,
        [_, after @ ..] => after,
    }
}

impl<'a> Lines<'a> {
    /// The lines of the text, from the first on.
    pub fn new(text: &'a [u8]) -> Lines<'a>
        ensures lines { result.lines ≡ lines_of text.now }
        ensures number { result.number ≡ 0 }
    {
        Lines {
            rest: text,
            number: 0,
        }
    }

    /// The number of the line last given, from 1 on, or 0 before the first.
    pub fn number(&self) -> u64
        ensures value { result ≡ self.now.number }
        ensures bound { result < 2 ^ 63 }
    {
        self.number
    }

    /// What is left of the text: its lines are those that are left.
    pub fn rest(&self) -> &'a [u8]
        ensures { lines_of result.now ≡ self.now.lines }
    {
        self.rest
    }

    /// The next line without its line feed, or `None` after the last one.
    ///
    /// `LineTooLong` if it has more than 65,536 bytes. That line stays the next one, so that the same call answers the
    /// same again.
    pub fn next_line(&mut self) -> Result<Option<&'a [u8]>, TextFault>
        ensures { MatchResult result
            (λ given. MatchOption given
            ((self.old.lines ≡ []) × (self.new ≡ self.old))
            (λ line. (length line.now ≤ LINE_BYTES) × (self.old.lines ≡ line.now ∷ self.new.lines)
            × (self.new.number ≡ self.old.number + 1)))
            (λ _. BeginsTooLong self.old.lines × (self.new ≡ self.old)) }
    {
        if self.rest.is_empty() {
            return Ok(None);
        }
        let end = line_length(self.rest);
        if end > LINE_BYTES {
            return Err(TextFault::LineTooLong);
        }
        let (line, rest) = self.rest.split_at(end);
        self.rest = after_first_line(rest);
        self.number += 1;
        Ok(Some(line))
    }
}
