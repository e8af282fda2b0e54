//! Certificates: a pit and a flow as a text, how it is read, and how it is written.
//!
//! Stands on `fixed_worth` for words and numbers, on `counted_devices` for pages, on `ordered_group` for amounts, and
//! on `closure_net` and `prec_file` for pits, flows and pairs. Promises upward:
//!
//! - `read_certificate` accepts exactly the texts of the grammar, with the pit and the flow that their lines say, and
//!   otherwise names the first faulty line. `reading::header` reads the first four lines alone.
//! - Each certificate has one text, which `write_certificate` writes, and which is read back as that certificate.
//! - What is read of one line (`version_in` to `group_in`, `line_of`, `may_follow`) is the same whoever cuts the text
//!   into lines: a reader of a whole text, or one of a device.
//!
//! An example: after the four lines of a header over three blocks come those of the pit and the flow. A block that
//! comes too late is refused by its line, the sixth, and a text that ends after its header is a certificate of the
//! empty pit. The header of another text, of 16,777,216 blocks at a factor of 10,000, is read before its body. Tried in
//! `lower_tests/src/certificates.rt`.
//!
//! ```rust
//! const HEADER: &[u8] = b"PITCERT 1\nBLOCKS 3\nPRICE OBJECTIVE\nGROUP WORTH\n";
//!
//! let read: Result<Certificate<G>, CertFault> = read_certificate(alloc, text, &rests);
//!
//! let order = Some(CertFault::OutOfOrder(6));
//! let rows: [Row; 7] = [
//!     (b"PIT 2\nPIT 0\nPIT 1\nEND\n", order),
//!     (b"END\n", None),
//! ];
//! have_their_faults(&rt, rt.alloc(), &rows)
//!
//! let priced = Header {
//!     blocks: 16_777_216,
//!     price: Price::Factor(10_000),
//!     group: Group::Pair,
//! };
//! let text = b"PITCERT 1\nBLOCKS 16777216\nPRICE 10000\nGROUP PAIR\nx";
//! same(&rt, header(text.as_slice()), Ok(priced));
//! ```
#![tactic(auto)]

mod body_lines;
mod body_reader;
mod cert_fault;
mod certificate;
mod gathering;
mod header;
mod header_lines;
mod piece_reader;
pub mod reading;
mod writing;

pub use body_lines::{BodyLine, LineKind, line_of, may_follow};
pub use body_reader::is_end;
pub use cert_fault::{CertFault, LineFault};
pub use certificate::Certificate;
pub use gathering::{amount, counts};
pub use header::{Header, Price, Version, Wanted};
pub use header_lines::{blocks_in, group_in, in_line, price_in, version_in};
pub use reading::read_certificate;
pub use writing::write_certificate;
