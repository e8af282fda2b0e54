//! Reads the word that says how many steps a trace may have; gives nothing for any other word.

ghost use Rattle.std.specs.Prelude.{◌≡◌};
ghost use Rattle.traced_engine.specs.RoomWord.{room_of};

use option_words::whole_within;
use trace_file::MOST_EVENTS;

/// The room that a word names: a whole number of steps from 1 to 2^24.
pub fn room_named(word: &[u8]) -> Option<u32>
    ensures { result ≡ room_of word.now }
{
    match whole_within(word, 1, MOST_EVENTS as u64) {
        Some(number) => Some(number as u32),
        None => None,
    }
}
