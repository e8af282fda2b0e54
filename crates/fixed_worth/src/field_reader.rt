//! Gives the fields of a line one after another: each with its place in the line, or read as a whole number or an
//! amount.

ghost use Rattle.std.specs.Prelude.{◌≡◌, ◌+◌, ◌<◌, ◌≤◌, ◌^◌, List, length, drop, not, position};
ghost use Rattle.std.specs.List.{position_or_len};
ghost use Rattle.std.specs.Iterator.{item_count, YieldsFirstBy};
ghost use Rattle.fixed_worth.specs.Text.{WordRun, is_separator, runs_from};
ghost use Rattle.fixed_worth.specs.Record.{first_whole};
ghost use Rattle.fixed_worth.specs.Decimal.{first_decimal};

use crate::first_amount::first_amount;
use crate::first_number::first_number;
use crate::limits::LINE_BYTES;
use crate::millionths::Micros;
use crate::numerals::{NumberFault, whole};
use std::marker::Model;

/// A field of a line: a longest run of bytes other than spaces, tabs, colons and carriage returns.
#[derive(Clone, Copy, Debug, PartialEq, Eq)]
pub struct Field<'a> {
    /// The bytes of the field, at least one.
    pub text: &'a [u8],
    /// How many bytes of the line stand before the field.
    pub place: u32,
}

/// The fields of a line, one after another.
#[derive(Drop)]
pub struct Fields<'a> {
    rest: &'a [u8],
    place: u32,
}

impl<'a> Model for Fields<'a> {
    ghost Value = { List WordRun };

    ghost view = { λ s. runs_from s.place s.rest.now };

    ghost invariant = { λ s. s.place + length s.rest.now < 2 ^ 32 };
}

/// Whether a byte parts fields: a space, a tab, a colon or a carriage return.
#[tactic(auto, unfolding(crate::specs::Text::is_separator))]
pub fn is_separator(b: u8) -> bool
    ensures { result ≡ is_separator b }
{
    b == b' ' || b == b'\t' || b == b':' || b == b'\r'
}

fn first_other(text: &[u8]) -> Option<usize>
    ensures { result ≡ position (λ b. not (is_separator b)) text.now }
{
    text.iter().position(|b| !is_separator(*b))
}

fn first_separator(text: &[u8]) -> Option<usize>
    ensures { result ≡ position is_separator text.now }
{
    text.iter().position(|b| is_separator(*b))
}

// How many separators come first.
#[tactic(auto, using(crate::proofs::Cuts::unwrap_position))]
fn gap_length(text: &[u8]) -> usize
    ensures { result ≡ position_or_len (λ b. not (is_separator b)) text.now }
{
    first_other(text).unwrap_or(text.len())
}

// How many bytes stand before the first separator.
#[tactic(auto, using(crate::proofs::Cuts::unwrap_position))]
fn run_length(text: &[u8]) -> usize
    ensures { result ≡ position_or_len is_separator text.now }
{
    first_separator(text).unwrap_or(text.len())
}

impl<'a> Fields<'a> {
    /// The fields of a line of at most 65,536 bytes, from the first on.
    pub fn new(line: &'a [u8]) -> Fields<'a>
        requires { length line.now ≤ LINE_BYTES }
        ensures fields { result ≡ runs_from 0 line.now }
        ensures few { length result ≤ length line.now }
    {
        Fields {
            rest: line,
            place: 0,
        }
    }

    /// The next field as a whole number, or why it is none: what [`whole`](crate::whole) says of its text. `None`
    /// after the last field.
    ///
    /// Either way the field is passed. A number of at most nineteen digits, as nearly all are, is read while its end is
    /// looked for, and the separator after it is passed too.
    #[inline(always)]
    pub fn next_whole(&mut self) -> Option<Result<u64, NumberFault>>
        ensures value { result ≡ first_whole self.old }
        ensures left { self.new ≡ drop 1 self.old }
    {
        if self.rest.is_empty() {
            return None;
        }
        let Some(first) = first_number(self.rest) else {
            let (read, left) = self.now().after_whole();
            *self = left;
            return read;
        };
        self.place += (self.rest.len() - first.rest.len()) as u32;
        self.rest = first.rest;
        Some(Ok(first.value))
    }

    /// The next field as an amount, or why it is none: what [`Micros::from_text`] says of its text. `None` after the
    /// last field.
    ///
    /// Either way the field is passed. An amount with at most twelve digits before its point and six after it, and
    /// without an exponent, is read while its end is looked for.
    #[inline(always)]
    pub fn next_amount(&mut self) -> Option<Result<Micros, NumberFault>>
        ensures value { result ≡ first_decimal self.old }
        ensures left { self.new ≡ drop 1 self.old }
    {
        if self.rest.is_empty() {
            return None;
        }
        let Some(first) = first_amount(self.rest) else {
            let (read, left) = self.now().after_amount();
            *self = left;
            return read;
        };
        self.place += (self.rest.len() - first.rest.len()) as u32;
        self.rest = first.rest;
        Some(Ok(first.amount))
    }

    // A second reader of the fields that are left.
    fn now(&self) -> Fields<'a>
        ensures { result ≡ self.now }
    {
        Fields {
            rest: self.rest,
            place: self.place,
        }
    }

    // The next field as a whole number, of whatever form, and the fields after it. By value, so that a loop over
    // numbers can hold its fields in registers.
    #[cold]
    #[inline(never)]
    fn after_whole(mut self) -> (Option<Result<u64, NumberFault>>, Fields<'a>)
        ensures value { result.0 ≡ first_whole self.entry }
        ensures left { result.1 ≡ drop 1 self.entry }
    {
        let read = match self.next() {
            Some(field) => Some(whole(field.text)),
            None => None,
        };
        (read, self)
    }

    // The next field as an amount, of whatever form, and the fields after it.
    #[cold]
    #[inline(never)]
    fn after_amount(mut self) -> (Option<Result<Micros, NumberFault>>, Fields<'a>)
        ensures value { result.0 ≡ first_decimal self.entry }
        ensures left { result.1 ≡ drop 1 self.entry }
    {
        let read = match self.next() {
            Some(field) => Some(Micros::from_text(field.text)),
            None => None,
        };
        (read, self)
    }
}

impl<'a> Iterator for Fields<'a> {
    type Item = Field<'a>;

    ghost next_gives = { YieldsFirstBy
        (λ f. record { text = f.text.now; place = f.place }) (λ s. s) };

    ghost remaining = { item_count (λ s. s) };

    fn next(&mut self) -> Option<Field<'a>> {
        let gap = gap_length(self.rest);
        let (_, rest) = self.rest.split_at(gap);
        self.place += gap as u32;
        self.rest = rest;
        if rest.is_empty() {
            return None;
        }
        let width = run_length(rest);
        let (text, rest) = rest.split_at(width);
        let place = self.place;
        self.place += width as u32;
        self.rest = rest;
        Some(Field { text, place })
    }
}
