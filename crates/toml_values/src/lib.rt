//! TOML documents as the readers of settings and of periods take them: a text as a table, and a value as a whole
//! number within its range.
//!
//! It stands on the kit's `toml`, which parses the text into a table of values.
//!
//! Upward it promises: [`read_document`] gives the table of just the document that the text is by `toml`'s own
//! grammar, and [`number_within`] the number that `specs/Numbers` says. Which keys a table may have is the matter of
//! who reads it.
//!
//! An example: `= 3` is no document, and `"revenue" = 3` is one; within 65,535 a column is a whole number, and so not
//! -1, 1.0, 65536 or `"1"`. Tried by way of `read_settings`, in `lower_tests/src/settings_texts.rt`.
//!
//! ```rust
//! let rows: [(&[u8], Option<SettingsFault>); 7] = [
//!     (b"= 3", Some(SettingsFault::NotToml)),
//!     (b"\"revenue\" = 3", None),
//! ];
//! have_their_faults(&rt, rt.alloc(), &rows);
//!
//! let revenue = Some(SettingsFault::BadValue(Key::Revenue));
//! let rows: [(&[u8], Option<SettingsFault>); 10] = [
//!     (b"revenue = -1", revenue),
//!     (b"revenue = 1.0", revenue),
//!     (b"revenue = 65536", revenue),
//!     (b"revenue = \"1\"", revenue),
//! ];
//! have_their_faults(&rt, rt.alloc(), &rows);
//! ```
#![tactic(auto)]

mod document;
mod numbers;

pub use document::{DocumentFault, read_document};
pub use numbers::number_within;
