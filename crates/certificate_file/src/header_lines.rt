//! Reads the first four lines of a certificate one by one, and decides whether it is for the wanted number of blocks
//! and kind of amounts.

ghost use Rattle.std.specs.Prelude.{◌≡◌, ◌+◌, drop, MatchOption, MatchResult, Some, None, Ok, Err};
ghost use Rattle.certificate_file.specs.Pieces as pieces;
ghost use Rattle.certificate_file.specs.Pieces.{IsPieceRead, words_of, piece_at, read_line};
ghost use Rattle.certificate_file.specs.Header as spec;

use crate::cert_fault::{CertFault, LineFault};
use crate::header::{Header, Price, Version, Wanted};
use crate::piece_reader::{Pieces, Words};
use fixed_worth::{MOST_BLOCKS, MOST_FACTOR, plain_signed};
use ordered_group::Group;

const VERSION_ONE: &[u8] = b"PITCERT 1";

const VERSION_TWO: &[u8] = b"PITCERT 2";

const BLOCKS: &[u8] = b"BLOCKS";

const PRICE: &[u8] = b"PRICE";

const OBJECTIVE: &[u8] = b"OBJECTIVE";

const MILL: &[u8] = b"MILL";

const GROUP: &[u8] = b"GROUP";

/// The number that a word is, where it is at least 0 and below the limit.
pub fn number_below(limit: u32, word: &[u8]) -> Option<u32>
    ensures { result ≡ pieces.number_below limit word.now }
{
    let number = plain_signed(word).ok()?;
    if number >= 0 && number < limit as i128 {
        Some(number as u32)
    } else {
        None
    }
}

// The second of two words, of which the first is the key.
fn value_after<'a>(key: &[u8], text: &'a [u8]) -> Option<&'a [u8]>
    ensures { MatchOption result
        (spec.value_after key.now (words_of text.now) ≡ None)
        (λ v. spec.value_after key.now (words_of text.now) ≡ Some v.now) }
{
    let mut words = Words::new(text);
    let first = words.next()?;
    let value = words.next()?;
    if words.next().is_some() || first != key {
        return None;
    }
    Some(value)
}

// The third of three words, of which the first two are the keys.
fn value_after_both<'a>(key: &[u8], other: &[u8], text: &'a [u8]) -> Option<&'a [u8]>
    ensures { MatchOption result
        (spec.value_after_both key.now other.now (words_of text.now) ≡ None)
        (λ v. spec.value_after_both key.now other.now (words_of text.now) ≡ Some v.now) }
{
    let mut words = Words::new(text);
    let first = words.next()?;
    let second = words.next()?;
    let value = words.next()?;
    if words.next().is_some() || first != key || second != other {
        return None;
    }
    Some(value)
}

fn or_number<T>(read: Option<T>) -> Result<T, LineFault>
    ensures { result ≡ spec.or_number read }
{
    read.ok_or(LineFault::Number)
}

/// The version of a text, by its first line.
pub fn version_in(text: &[u8]) -> Result<Version, LineFault>
    ensures { result ≡ spec.version_in text.now }
{
    if text == VERSION_ONE {
        Ok(Version::One)
    } else if text == VERSION_TWO {
        Ok(Version::Two)
    } else {
        Err(LineFault::Text)
    }
}

fn wanted_blocks(wanted: Option<Wanted>, read: Option<u32>) -> Option<u32>
    ensures { result ≡ spec.wanted_blocks wanted read }
{
    match (wanted, read) {
        (None, read) => read,
        (Some(_), None) => None,
        (Some(wanted), Some(blocks)) => if blocks == wanted.blocks {
            Some(blocks)
        } else {
            None
        },
    }
}

/// The number of blocks that a line says, which may have to be the one that is wanted.
pub fn blocks_in(wanted: Option<Wanted>, text: &[u8]) -> Result<u32, LineFault>
    ensures { result ≡ spec.blocks_in wanted text.now }
{
    let word = value_after(BLOCKS, text).ok_or(LineFault::Text)?;
    or_number(wanted_blocks(wanted, number_below(MOST_BLOCKS + 1, word)))
}

fn factor_of(read: Option<u32>) -> Option<Price>
    ensures { result ≡ spec.factor_of read }
{
    Some(Price::Factor(read?))
}

fn mill_of(read: Option<u32>) -> Option<Price>
    ensures { result ≡ spec.mill_of read }
{
    Some(Price::Mill(read?))
}

// The price of a text of the first version.
fn plain_price_in(text: &[u8]) -> Result<Price, LineFault>
    ensures { result ≡ spec.price_in Version.One text.now }
{
    let word = value_after(PRICE, text).ok_or(LineFault::Text)?;
    if word == OBJECTIVE {
        Ok(Price::Objective)
    } else {
        or_number(factor_of(number_below(MOST_FACTOR + 1, word)))
    }
}

// The price of a text of the second version.
fn mill_price_in(text: &[u8]) -> Result<Price, LineFault>
    ensures { result ≡ spec.price_in Version.Two text.now }
{
    let word = value_after_both(PRICE, MILL, text).ok_or(LineFault::Text)?;
    or_number(mill_of(number_below(MOST_FACTOR + 1, word)))
}

/// The price that a line says in a text of the version.
pub fn price_in(version: Version, text: &[u8]) -> Result<Price, LineFault>
    ensures { result ≡ spec.price_in version text.now }
{
    match version {
        Version::One => plain_price_in(text),
        Version::Two => mill_price_in(text),
    }
}

fn wanted_group(wanted: Option<Wanted>, group: Group) -> Result<Group, LineFault>
    ensures { result ≡ spec.wanted_group wanted group }
{
    match wanted {
        Some(wanted) => if wanted.group == group {
            Ok(group)
        } else {
            Err(LineFault::Text)
        },
        None => Ok(group),
    }
}

/// The group that a line names, which may have to be the one that is wanted.
pub fn group_in(wanted: Option<Wanted>, text: &[u8]) -> Result<Group, LineFault>
    ensures { result ≡ spec.group_in wanted text.now }
{
    let word = value_after(GROUP, text).ok_or(LineFault::Text)?;
    let group = Group::of_word(word).ok_or(LineFault::Text)?;
    wanted_group(wanted, group)
}

/// What a line gives, or its fault with its number.
pub fn in_line<T>(number: u64, read: Result<T, LineFault>) -> Result<T, CertFault>
    ensures { result ≡ pieces.in_line number read }
{
    read.map_err(|fault| match fault {
        LineFault::Text => CertFault::Text(number),
        LineFault::Number => CertFault::Number(number),
    })
}

fn read_version(pieces: &mut Pieces) -> Result<Version, CertFault>
    ensures { MatchResult result
        (λ x. IsPieceRead spec.version_in pieces.old pieces.new x)
        (λ e. read_line spec.version_in
        (pieces.old.number + 1) (piece_at pieces.old.pieces 0) ≡ Err e) }
{
    let line = pieces.next_line()?;
    in_line(pieces.number(), version_in(line))
}

fn read_blocks(pieces: &mut Pieces, wanted: Option<Wanted>) -> Result<u32, CertFault>
    ensures { MatchResult result
        (λ x. IsPieceRead (spec.blocks_in wanted) pieces.old pieces.new x)
        (λ e. read_line (spec.blocks_in wanted) (pieces.old.number + 1)
        (piece_at pieces.old.pieces 0) ≡ Err e) }
{
    let line = pieces.next_line()?;
    in_line(pieces.number(), blocks_in(wanted, line))
}

fn read_price(pieces: &mut Pieces, version: Version) -> Result<Price, CertFault>
    ensures { MatchResult result
        (λ x. IsPieceRead (spec.price_in version) pieces.old pieces.new x)
        (λ e. read_line (spec.price_in version) (pieces.old.number + 1)
        (piece_at pieces.old.pieces 0) ≡ Err e) }
{
    let line = pieces.next_line()?;
    in_line(pieces.number(), price_in(version, line))
}

fn read_group(pieces: &mut Pieces, wanted: Option<Wanted>) -> Result<Group, CertFault>
    ensures { MatchResult result
        (λ x. IsPieceRead (spec.group_in wanted) pieces.old pieces.new x)
        (λ e. read_line (spec.group_in wanted) (pieces.old.number + 1)
        (piece_at pieces.old.pieces 0) ≡ Err e) }
{
    let line = pieces.next_line()?;
    in_line(pieces.number(), group_in(wanted, line))
}

/// The header, with these blocks and this group where any are wanted.
pub fn read_header(pieces: &mut Pieces, wanted: Option<Wanted>) -> Result<Header, CertFault>
    requires { pieces.old.number ≡ 0 }
    ensures { MatchResult result
        (λ h. (spec.header_for wanted pieces.old.pieces ≡ Ok h)
        × (pieces.new.pieces ≡ drop 4 pieces.old.pieces) × (pieces.new.number ≡ 4))
        (λ e. spec.header_for wanted pieces.old.pieces ≡ Err e) }
{
    let version = read_version(pieces)?;
    let blocks = read_blocks(pieces, wanted)?;
    let price = read_price(pieces, version)?;
    let group = read_group(pieces, wanted)?;
    Ok(Header {
        blocks,
        price,
        group,
    })
}
