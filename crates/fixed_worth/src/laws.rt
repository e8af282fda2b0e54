//! What lines, fields and plain numbers are, as laws of the definitions that the readers meet.
//!
//! These functions do nothing. A caller names one where its own proof needs the law.

ghost use Rattle.std.specs.Prelude.{◌≡◌, Ok};
ghost use Rattle.std.specs.Fmt.{signed_decimal};
ghost use Rattle.fixed_worth.specs.Numeral.{plain_of};
ghost use Rattle.fixed_worth.specs.Laws.{AreLines, AreFields, HasOneSpelling};
ghost use Rattle.fixed_worth.specs.Text.{lines_of, runs_from};

/// The lines of a text, with a line feed after each, give the text back, with a line feed after its last line. No line
/// has a line feed in it.
pub fn lines_make_the_text(text: &[u8])
    ensures { AreLines text.now (lines_of text.now) }
{}

/// The fields of a line are its longest runs of bytes that are no separators, all of them and in their order, each the
/// slice of the line at its place.
pub fn fields_are_longest_runs(line: &[u8])
    ensures { AreFields line.now (runs_from 0 line.now) }
{}

/// A plain number is the text that its value prints, so that no two texts are one number.
pub fn plain_numbers_have_one_spelling(text: &[u8])
    ensures { HasOneSpelling text.now }
{}

/// Each number of 128 bits prints as a plain number, which is read as that number.
pub fn printed_numbers_are_plain(number: i128)
    ensures { plain_of (signed_decimal number) ≡ Ok number }
{}
