//! Reads the words that name a slope pattern or say which way is up; gives nothing for any other word.

ghost use Rattle.std.specs.Prelude.{◌≡◌, IfSome};
ghost use Rattle.fixed_worth.specs.Text.{parts};
ghost use Rattle.option_words.specs.PatternWords.{IsChoice, IsConeNumber, cone_number_of, cone_of, plain_pattern_of, pattern_of, up_of};

use crate::pattern_choice::PatternChoice;
use crate::whole_numbers::whole_within;
use fixed_worth::cut_at;
use slope_offsets::{MOST_CONE_NUMBER, Up};

const COLON: u8 = b':';

// The number of a cone: a whole number from 1 to 1,000.
fn cone_number(piece: &[u8]) -> Option<u32>
    ensures is { result ≡ cone_number_of piece.now }
    ensures small { IfSome result IsConeNumber }
{
    match whole_within(piece, 1, MOST_CONE_NUMBER as u64) {
        Some(number) => Some(number as u32),
        None => None,
    }
}

// The cone whose three numbers are the pieces of a text.
fn cone_named(numbers: &[u8]) -> Option<PatternChoice>
    ensures is { result ≡ cone_of (parts 58 numbers.now) }
    ensures choice { IfSome result IsChoice }
{
    let (levels, others) = match cut_at(COLON, numbers) {
        Some(pieces) => pieces,
        None => return None,
    };
    let (run, rise) = match cut_at(COLON, others) {
        Some(pieces) => pieces,
        None => return None,
    };
    match cut_at(COLON, rise) {
        Some(_) => None,
        None => match (cone_number(levels), cone_number(run), cone_number(rise)) {
            (Some(levels), Some(run), Some(rise)) => Some(PatternChoice::Cone {
                levels,
                run,
                rise,
            }),
            _ => None,
        },
    }
}

// The pattern that a name without numbers gives.
fn plain_pattern(name: &[u8]) -> Option<PatternChoice>
    ensures is { result ≡ plain_pattern_of name.now }
    ensures choice { IfSome result IsChoice }
{
    if name == b"five".as_slice() {
        Some(PatternChoice::Five)
    } else if name == b"nine".as_slice() {
        Some(PatternChoice::Nine)
    } else {
        None
    }
}

/// The pattern that a word names: `five`, `nine`, or `cone:LEVELS:RUN:RISE` with three whole numbers from 1 to 1,000.
pub fn pattern_named(word: &[u8]) -> Option<PatternChoice>
    ensures is { result ≡ pattern_of word.now }
    ensures choice { IfSome result IsChoice }
{
    match cut_at(COLON, word) {
        Some((name, numbers)) => {
            if name == b"cone".as_slice() {
                cone_named(numbers)
            } else {
                None
            }
        }
        None => plain_pattern(word),
    }
}

/// The direction that a word names: `plus` or `minus`.
pub fn up_named(word: &[u8]) -> Option<Up>
    ensures { result ≡ up_of word.now }
{
    if word == b"plus".as_slice() {
        Some(Up::PlusZ)
    } else if word == b"minus".as_slice() {
        Some(Up::MinusZ)
    } else {
        None
    }
}
