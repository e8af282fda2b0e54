//! Reads a word as a whole number between two bounds; gives nothing where it is none.

ghost use Rattle.std.specs.Prelude.{◌≡◌, ◌≤◌, IfSome};
ghost use Rattle.option_words.specs.WholeNumbers.{whole_within};

use fixed_worth::whole;

/// The whole number from `least` to `most` that a word names, or `None` where it names none.
pub fn whole_within(word: &[u8], least: u64, most: u64) -> Option<u64>
    ensures is { result ≡ whole_within word.now least most }
    ensures range { IfSome result (λ number. (least ≤ number) × (number ≤ most)) }
{
    match whole(word) {
        Ok(number) => {
            if least <= number && number <= most {
                Some(number)
            } else {
                None
            }
        }
        Err(_) => None,
    }
}
