//! Precedence: which blocks must be dug before which.
//!
//! A pair (b, p) says that block b rests on block p, so that b can be dug only after p. `Rests` holds such pairs,
//! each once and in order, and answers both ways at once: what a block rests on, and which pairs rest on a block.
//! `Predecessors` holds them to answer the first alone, with about a third of the memory. `read_prec` and
//! `read_predecessors` read them from a precedence file, and `write_prec` writes them to one.
//!
//! It stands on `fixed_worth` for lines, fields and whole numbers, and on `counted_devices`.
//!
//! Promises upward:
//!
//! - A `Rests` and a `Predecessors` are exactly the set of the pairs that were listed, except those of a block with
//!   itself.
//! - A text is refused exactly where it has a fault, with the first faulty line and the first of its faults.
//! - What is written is read back as the same pairs.
//!
//! Both types are built in the time of a sort, or in linear time where the pairs are listed in order. A
//! `PredecessorsBuilder` takes the pairs block by block, and never holds more than it keeps; so are texts read whose
//! records go by their blocks.
//!
//! An example: a line has a block, how many it rests on, and these. Of three blocks the lines say that block 2 rests on
//! block 0, and block 1 on block 2; `write_predecessors` writes the same in the order of the blocks. Tried in
//! `lower_tests/src/prec_writing.rt`; what pairs and faults are read, in `lower_tests/src/prec_reading.rt`.
//!
//! ```rust
//! let predecessors = read_listed(alloc, b"2 1 0\n1 1 2\n", 3)?.into_predecessors(alloc)?;
//! let mut out = Counted::new(Vec::new(alloc));
//! write_predecessors(&predecessors, &mut out)
//!     .ok()
//!     .ok_or("written")?;
//! let received = out.into_inner();
//! assert!(rt; received.as_slice() == b"0 0\n1 1 2\n2 1 0\n".as_slice());
//! ```
#![tactic(auto)]

mod first_pairs;
mod index;
pub mod laws;
mod limits;
mod line_text;
mod listed_pairs;
mod pair_order;
mod part_reading;
mod prec_fault;
mod predecessors;
mod predecessors_builder;
mod reading;
mod records;
mod rests;
mod rests_fault;
mod rising;
mod write_fault;
mod writing;

pub use limits::MOST_PAIRS;
pub use listed_pairs::ListedPairs;
pub use prec_fault::PrecFault;
pub use predecessors::Predecessors;
pub use predecessors_builder::PredecessorsBuilder;
pub use reading::{read_listed, read_prec, read_predecessors};
pub use rests::Rests;
pub use rests_fault::RestsFault;
pub use write_fault::PrecWriteFault;
pub use writing::{write_prec, write_predecessors};
