//! Reads and writes `.upit` files, which give the blocks of an ultimate-pit problem their values.
//!
//! A text has a header, whose records begin with a key such as `NAME` or `NBLOCKS`, and after the line
//! `OBJECTIVE_FUNCTION` a record of a block number and a value each. A block without a record is worth nothing. The
//! layout is that of the files of MineLib (Espinoza and others 2013).
//!
//! It stands on `fixed_worth`, which cuts lines and fields and reads the numbers in them, and on `counted_devices`,
//! which sends texts.
//!
//! Upward it promises:
//! - [`read_upit`] gives exactly the name and the values that `specs/Records` says the text denotes, or its first fault
//!   with the number of the line. `specs/Header` and `specs/Body` have the two parts of a text.
//! - [`read_values`] does so for the number of blocks that the text itself declares. Both give the same whatever the
//!   number of threads that read.
//! - [`declared_blocks`] gives the number of blocks that the header declares, or its first fault, without taking
//!   memory.
//! - [`write_upit`] sends exactly the text that `specs/Writing` gives to a name and values, without taking memory, and
//!   that text is read back as that name and these values ([`laws::written_is_read`]).
//!
//! An example: a text of three blocks, worth 0, -2.5 and 10^12, which [`read_upit`] reads and [`write_upit`] writes as
//! it was. Tried in `lower_tests/src/upit_files.rt`.
//!
//! ```rust
//! const WRITTEN: &[u8] =
//!     b"NAME: a b\nTYPE: UPIT\nNBLOCKS: 3\nOBJECTIVE_FUNCTION:\n0 0\n1 -2.5\n2 1000000000000\nEOF\n";
//!
//! let mut out = Counted::new(Vec::new(alloc));
//! let answer = write_upit(upit, &mut out);
//! let received = out.into_inner();
//! assert!(rt; answer == Ok(()) && received.as_slice() == text);
//!
//! Ok(read_upit(rt, alloc, WRITTEN, 3, None).ok().ok_or("read")?)
//!
//! let upit = written_sample(&rt, rt.alloc())?;
//! writes(&rt, rt.alloc(), &upit, WRITTEN);
//! ```
#![tactic(auto)]

mod body;
mod header;
mod key;
pub mod laws;
mod limits;
mod name;
mod part_reading;
mod reading;
mod record;
mod seen;
mod upit;
mod upit_fault;
mod writing;
mod written_record;

pub use limits::NAME_BYTES;
pub use reading::{declared_blocks, read_upit, read_values};
pub use upit::Upit;
pub use upit_fault::UpitFault;
pub use writing::write_upit;
