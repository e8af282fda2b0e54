//! Reads the words of options as a factor, a kind of amount, a number of steps or a number of
//! workers; gives nothing for any other word.

ghost use Rattle.std.specs.Prelude.{◌≡◌, ◌≤◌, IfSome};
ghost use Rattle.option_words.specs.OptionWords.{factor_of_word, group_of_word, steps_of, workers_of};

use crate::whole_numbers::whole_within;
use async_step::MOST_STEPS;
use fixed_worth::MOST_FACTOR;
use ordered_group::Group;
use shells::Factor;
use workers::MOST_WORKERS;

/// The kind of amount that a word names: `worth`, `pair` or `scaled`.
pub fn group_named(word: &[u8]) -> Option<Group>
    ensures { result ≡ group_of_word word.now }
{
    if word == b"worth".as_slice() {
        Some(Group::Worth)
    } else if word == b"pair".as_slice() {
        Some(Group::Pair)
    } else if word == b"scaled".as_slice() {
        Some(Group::Scaled)
    } else {
        None
    }
}

/// The factor that a word names: a whole number of thousandths from 0 to 10,000.
pub fn factor_named(word: &[u8]) -> Option<Factor>
    ensures { result ≡ factor_of_word word.now }
{
    match whole_within(word, 0, MOST_FACTOR as u64) {
        Some(number) => Factor::new(number as u32),
        None => None,
    }
}

/// The number of steps that a word names: a whole number from 1 to 2^40.
pub fn steps_named(word: &[u8]) -> Option<u64>
    ensures { result ≡ steps_of word.now }
{
    whole_within(word, 1, MOST_STEPS)
}

/// The number of workers that a word names: a whole number from 1 to 64.
pub fn workers_named(word: &[u8]) -> Option<u32>
    ensures is { result ≡ workers_of word.now }
    ensures range { IfSome result (λ workers. (1 ≤ workers) × (workers ≤ MOST_WORKERS)) }
{
    match whole_within(word, 1, MOST_WORKERS as u64) {
        Some(number) => Some(number as u32),
        None => None,
    }
}
