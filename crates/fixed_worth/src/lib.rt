//! Numbers as texts and back, and the lines and fields of texts that hold them.
//!
//! Everything that reads or prints a number goes through this crate: whole numbers, decimals in
//! millionths, and sums in millionths and in billionths. It also cuts a text into lines and a line
//! into fields. It stands on the kit's `memchr`, which finds a byte in a text, and on nothing else.
//!
//! Upward it promises that each reader gives exactly what the definitions in `specs/` say of the
//! text, with the fault that they name, and that nothing wraps or is rounded in silence: `Numeral`
//! has whole numbers, `Decimal` has decimals and how they are rounded, `Text` has lines and fields,
//! `Record` has what the line files share.
//!
//! An example: `whole` reads the greatest `u64` and refuses one more; `Nanos` prints billionths, here -1.5; `Lines`
//! gives the lines of a text with their numbers, and `Fields` the fields of a line with their places, which count its
//! bytes from 0. Tried in `lower_tests/src/texts_and_numbers.rt`.
//!
//! ```rust
//! for (text, want) in &[
//!     ("18446744073709551615", Ok(u64::MAX)),
//!     ("18446744073709551616", Err(TooLarge)),
//! ] {
//!     equal_at(&rt, text, whole(text.as_bytes()), *want);
//! }
//!
//! prints(&rt, alloc, Nanos(-1_500_000_000), "-1.5");
//!
//! let mut lines = Lines::new(b"one\n\ntwo\r\nend");
//! next_is(&rt, &mut lines, Ok(Some(b"one")), 1);
//! next_is(&rt, &mut lines, Ok(Some(b"")), 2);
//!
//! let mut fields = Fields::new(b"  a:bc\td \r");
//! next_field_is(&rt, &mut fields, b"a", 2);
//! next_field_is(&rt, &mut fields, b"bc", 4);
//! ```
#![tactic(auto)]

mod cutting;
mod decimals;
mod eight_bytes;
mod fault_names;
mod field_reader;
mod first_amount;
mod first_number;
pub mod laws;
mod limits;
mod line_parts;
mod line_reader;
mod millionths;
mod numerals;
mod printing;
mod remark;
mod rounding;
mod written_number;

pub use cutting::cut_at;
pub use field_reader::{Field, Fields, is_separator};
pub use limits::{LINE_BYTES, MOST_BLOCKS, MOST_BYTES, MOST_FACTOR, MOST_FACTORS};
pub use line_parts::{cut_after_line, first_block, part_count};
pub use line_reader::{Lines, TextFault, after_first_line, first_line_feed};
pub use millionths::Micros;
pub use numerals::{NumberFault, plain_signed, signed_whole, whole};
pub use printing::{MicrosTotal, Nanos, trimmed_fraction};
pub use remark::is_remark;
pub use written_number::WrittenNumber;
