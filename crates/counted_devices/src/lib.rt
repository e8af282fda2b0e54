//! Devices that count their calls that failed, and what goes over them: inputs read whole, and texts, lines and pages
//! sent.
//!
//! Stands on `fixed_worth`, which gives a line its numbers, and on nothing else. Promises upward: where a device
//! fails, its count says so; what a writer had received by then is a prefix of the text; and an input is read whole,
//! or refused where it has more bytes than the limit.
//!
//! An example: with a limit of 5 `read_whole` gives five bytes whole and refuses ten; and a device that takes three
//! bytes a call gets all ten digits that `write_text` sends. Tried in `lower_tests/src/devices.rt`.
//!
//! ```rust
//! let mut from = Counted::new(Failing::new(bytes, 1, fails_at, failure));
//! let answer = match read_whole(alloc, &mut from, u64::from(limit)) {
//!     Ok(text) => Ok(text.len()),
//!     Err(fault) => Err(fault),
//! };
//!
//! let (exact, calls) = read_by_bytes(rt.alloc(), b"01234", 5, 0, Failure::Broken);
//! assert!(rt; exact == Ok(5) && calls <= 7);
//! let (longer, calls) = read_by_bytes(rt.alloc(), b"0123456789", 5, 0, Failure::Broken);
//! assert!(rt; longer == Err(InputFault::InputTooLong) && calls <= 7);
//!
//! let mut out = Counted::new(Failing::new(Vec::new(alloc), 3, fails_at, failure));
//! let answer = write_text(&mut out, b"0123456789");
//! (answer, out.into_inner().into_inner())
//!
//! let (answer, received) = sent(rt.alloc(), 0, Failure::Broken);
//! assert!(rt; answer == Ok(()) && received.as_slice() == b"0123456789".as_slice());
//! ```
#![tactic(auto)]

mod device_faults;
mod devices;
mod failing_device;
mod pages;
mod sending;
mod short_line;
mod whole_input;

pub use devices::{Counted, CountedRead, CountedWrite};
pub use failing_device::{Failing, Failure};
pub use pages::Page;
pub use sending::{WriteFault, write_text};
pub use short_line::ShortLine;
pub use whole_input::{InputFault, read_whole};
