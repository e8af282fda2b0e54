//! Shows a text with its control characters escaped, so that none of them acts on the terminal.

use std::fmt;

/// A text, shown with its control characters as `\u{1b}`, so that none of them acts on the terminal.
#[derive(Clone, Copy)]
pub struct Escaped<'a> {
    /// The text.
    pub text: &'a str,
}

impl fmt::Display for Escaped<'_> {
    fn fmt<W: fmt::Write>(&self, f: &mut fmt::Formatter<W>) -> fmt::Result {
        for letter in self.text.chars() {
            if letter.is_control() {
                let code = letter as u32;
                write!(f, "\\u{{{code:x}}}")?;
            } else {
                f.write_char(letter)?;
            }
        }
        Ok(())
    }
}

/// Whether a text has a control character.
pub fn has_control(text: &str) -> bool {
    for letter in text.chars() {
        if letter.is_control() {
            return true;
        }
    }
    false
}
