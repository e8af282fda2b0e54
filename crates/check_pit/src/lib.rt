//! The checker: whether a certificate's flow proves its pit.
//!
//! Stands on `certificate_file` for the lines of a certificate, on `held_pairs` and `places` for who rests on whom
//! without a list, and on `closure_net`, `fixed_worth`, `ordered_group` and `prec_file`. Promises upward: whatever
//! `check` accepts is closed, and no closed set sums to more; whatever it refuses has the fault that it names, and none
//! that comes before it; and a closed, tight pit with a flow whose sums fit is never refused. `check_held`
//! and `check_stream` read and check a certificate at once, line by line.
//!
//! An example: three blocks are worth 6, 5 and -10, and the first two rest on the third. By a flow in which the source
//! gives 6 and 4 and the sink takes 10, [`check`] accepts the pit of all three, which is worth 1. Tried in
//! `lower_tests/src/pits_and_flows.rt`; as the text of a certificate, in `lower_tests/src/certificate_streams.rt`.
//!
//! ```rust
//! net_of(
//!     alloc,
//!     &[(0, 2), (1, 2)],
//!     &[size(6, -1), size(5, -1), size(-10, -1)],
//! )
//!
//! flow_of(
//!     alloc,
//!     &[size(6, -1), size(4, 2), size(0, 0)],
//!     &[size(6, -1), size(4, 2)],
//!     &[size(0, 0), size(0, 0), size(10, 1)],
//! )
//!
//! let accepted = check(net, pit, flow).ok().ok_or("refused")?;
//! same(rt, accepted.worth(), size(1, -3));
//! same(rt, accepted.pit().blocks(), [0, 1, 2].as_slice());
//! ```
#![tactic(auto)]

mod accepted;
mod accepted_pit;
mod cert_stream;
mod checking;
mod closing;
mod held_graph;
pub mod laws;
mod marks;
mod pit_fault;
mod pit_list;
mod room;
mod stream_body;
mod stream_bytes;
mod stream_checking;
mod stream_fault;
mod stream_header;
mod stream_lines;
mod sums;

pub use accepted::Accepted;
pub use accepted_pit::AcceptedPit;
pub use cert_stream::{CertStream, check_held, check_stream};
pub use certificate_file::{
    CertFault, Certificate, Header, Price, read_certificate, reading, write_certificate,
};
pub use checking::{check, check_in_memory};
pub use held_graph::{HeldGraph, graph_of_worths};
pub use pit_fault::PitFault;
pub use room::Room;
pub use stream_bytes::StreamBytes;
pub use stream_fault::StreamFault;
