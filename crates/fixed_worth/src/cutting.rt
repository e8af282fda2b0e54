//! Parts a text at the first place where a given byte stands: gives the text before it and the text
//! after it, or nothing where the byte isn't there.

ghost use Rattle.std.specs.Prelude.{◌≡◌, [], ◌∷◌, MatchOption};
ghost use Rattle.fixed_worth.specs.Text.{parts};

use crate::line_reader::after_first_line;
use memchr::memchr;

/// The text before the first `byte` and the text after it, or `None` where `byte` isn't in the text.
pub fn cut_at<'a>(byte: u8, text: &'a [u8]) -> Option<(&'a [u8], &'a [u8])>
    ensures { MatchOption result
        (parts byte text.now ≡ text.now ∷ [])
        (λ cut. parts byte text.now ≡ cut.0.now ∷ parts byte cut.1.now) }
{
    match memchr(byte, text) {
        Some(end) => {
            let (before, rest) = text.split_at(end);
            Some((before, after_first_line(rest)))
        }
        None => None,
    }
}
