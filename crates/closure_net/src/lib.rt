//! Picard's network of a closure problem (Picard, Maximal closure of a graph, 1976): the blocks, what
//! each rests on and what each is worth; flows in it; and pits, which are sets of blocks. A `Graph` is
//! the net without what only a search for a flow needs.
//!
//! Stands on `fixed_worth`, `ordered_group` and `prec_file`. Promises upward:
//!
//! - The pairs of a `Net` are of its blocks, each worth has an opposite that fits, and so does each sum
//!   of positive worths. A `Pit` is ascending.
//! - `pit_of` gives exactly the blocks that the source reaches in what a flow leaves.
//! - `laws` leads from sums of amounts to the worth and the number of blocks of a pit: a greatest closed
//!   set is the best pit, there is at most one, and it grows where worths rise.
//!
//! An example: blocks 0 and 1, worth 6 and 5, rest on block 2, worth -10. By a flow in which the source gives 6 and 4,
//! which go over the pairs into the sink, the source reaches all three blocks: it could still give block 1 one more,
//! which goes on to block 2, and block 2 can give block 0 back what it got. Each amount has a size too, -1 a block.
//! Tried in `lower_tests/src/nets_flows_and_pits.rt`.
//!
//! ```rust
//! fn two_on_waste(alloc: Global, nanos: &[i128]) -> Result<Net<WorthSize>, Fail> {
//!     let rests = rests(alloc, 3, &[(0, 2), (1, 2)])?;
//!     Ok(Net::of_worths(alloc, rests, nanos).ok().ok_or("worths")?)
//! }
//!
//! let pit = pit_of(alloc, net, flow)?;
//! assert!(rt; pit.blocks() == blocks && pit.is_empty() == blocks.is_empty());
//!
//! let flow = flow_of(alloc, parts.0, parts.1, parts.2)?;
//! reaches(rt, alloc, net, &flow, blocks)
//!
//! let net = two_on_waste(alloc, &[6, 5, -10])?;
//! let source = [amount(6, -1), amount(4, 2), amount(0, 0)];
//! let rest = [amount(6, -1), amount(4, 2)];
//! let sink = [amount(0, 0), amount(0, 0), amount(10, 1)];
//! reaches_by(&rt, alloc, &net, (&source, &rest, &sink), &[0, 1, 2])
//! ```
#![tactic(auto)]

mod carried;
mod equality;
mod flow;
mod graph;
pub mod laws;
mod net;
mod pit;
mod port;
mod search;
mod source_side;
mod worths;

pub use carried::Carried;
pub use equality::same_pairs;
pub use flow::Flow;
pub use graph::{Graph, GraphRef};
pub use net::{Net, NetFault};
pub use pit::Pit;
pub use port::{Port, PortKind};
pub use source_side::pit_of;
