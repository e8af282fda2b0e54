//! Gives the lines of a certificate's text one after another, with their numbers, and the words of a line, which
//! single spaces divide.

ghost use Rattle.std.specs.Prelude.{◌≡◌, ℕ, ◌+◌, ◌<◌, ◌≤◌, ◌^◌, ◌==◌, true, cond, List, [], ◌∷◌, length, MatchResult, Some};
ghost use Rattle.std.specs.Iterator.{item_count, YieldsFirstBy};
ghost use Rattle.certificate_file.specs.Pieces.{Unread, pieces_of, piece_at, piece_fault, words_of};

use crate::cert_fault::CertFault;
use fixed_worth::{LINE_BYTES, after_first_line, cut_at, first_line_feed};
use std::marker::Model;

/// The pieces of a text, of which each that ends in a line feed is a line.
#[derive(Drop)]
pub struct Pieces<'a> {
    rest: &'a [u8],
    number: u64,
}

impl<'a> Model for Pieces<'a> {
    ghost Value = { Unread };

    ghost view = { λ s. record { pieces = pieces_of s.rest.now; number = s.number } };

    ghost invariant = { λ s. s.number + length s.rest.now < 2 ^ 63 };
}

impl<'a> Pieces<'a> {
    /// The pieces of the text, from the first on.
    pub fn new(text: &'a [u8]) -> Pieces<'a>
        ensures pieces { result.pieces ≡ pieces_of text.now }
        ensures number { result.number ≡ 0 }
    {
        Pieces {
            rest: text,
            number: 0,
        }
    }

    /// The number of the line last read, or 0 before the first.
    pub fn number(&self) -> u64
        ensures value { result ≡ self.now.number }
        ensures bound { result < 2 ^ 63 }
    {
        self.number
    }

    /// Whether nothing is left.
    pub fn is_done(&self) -> bool
        ensures { result ≡ (length self.now.pieces == 0) }
    {
        self.rest.is_empty()
    }

    /// The next line without its line feed.
    pub fn next_line(&mut self) -> Result<&'a [u8], CertFault>
        ensures { MatchResult result
            (λ line. (length line.now ≤ LINE_BYTES)
            × (self.old.pieces ≡ record { text = line.now; ended = true } ∷ self.new.pieces)
            × (self.new.number ≡ self.old.number + 1))
            (λ e. piece_fault (self.old.number + 1) (piece_at self.old.pieces 0) ≡ Some e) }
    {
        match first_line_feed(self.rest) {
            Some(end) => {
                if end > LINE_BYTES {
                    return Err(CertFault::Text(self.number + 1));
                }
                let (line, rest) = self.rest.split_at(end);
                self.rest = after_first_line(rest);
                self.number += 1;
                Ok(line)
            }
            None => {
                if self.rest.len() > LINE_BYTES {
                    return Err(CertFault::Text(self.number + 1));
                }
                Err(CertFault::Truncated)
            }
        }
    }
}

/// The words of a line, which single spaces divide.
#[derive(Drop)]
pub struct Words<'a> {
    rest: &'a [u8],
    done: bool,
}

impl<'a> Model for Words<'a> {
    ghost Value = { List (List ℕ) };

    ghost view = { λ s. cond s.done [] (words_of s.rest.now) };
}

impl<'a> Words<'a> {
    /// The words of the line, from the first on.
    pub fn new(line: &'a [u8]) -> Words<'a>
        ensures { result ≡ words_of line.now }
    {
        Words {
            rest: line,
            done: false,
        }
    }
}

impl<'a> Iterator for Words<'a> {
    type Item = &'a [u8];

    ghost next_gives = { YieldsFirstBy (λ w. w.now) (λ s. s) };

    ghost remaining = { item_count (λ s. s) };

    fn next(&mut self) -> Option<&'a [u8]> {
        if self.done {
            return None;
        }
        match cut_at(b' ', self.rest) {
            Some((word, rest)) => {
                self.rest = rest;
                Some(word)
            }
            None => {
                self.done = true;
                Some(self.rest)
            }
        }
    }
}
