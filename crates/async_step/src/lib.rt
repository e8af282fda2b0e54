//! The machine that finds a greatest flow of a net in single atomic steps: Hong's lock-free
//! push-relabel (Hong, A lock-free multi-threaded algorithm for the maximum flow problem, 2008), in
//! which each step reads or writes one number, so that the steps of different blocks may come in
//! any order. Its pushes and relabels are those of the generic method (Goldberg and Tarjan, A new
//! approach to the maximum-flow problem, Journal of the ACM 35, 1988), which makes O(V^2 E) pushes
//! over V nodes and E arcs; Hong gives O(V^2 E) pushes and relabels. No bound is claimed here: a run
//! ends where its state is quiet, and otherwise at the limit that it is given.
//!
//! Stands on `machine_law`, which says what a state and a step are and what every step keeps, on
//! `closure_net` for nets, ports and flows, on `ordered_group` for amounts, and on `fixed_worth`
//! for the most blocks that there may be. Promises upward:
//!
//! - A `State` shows one state of the machine and no other; `State::open` is the opening state.
//! - A step is exactly one step of the machine, and returns what was seen, moved or raised. A refusal is
//!   returned exactly where it is due, the first in order, and changes nothing.
//! - `replay` is the run of its list, or its first refused place.
//! - So the laws of `machine_law` are true of every state that these give, at every group. A quiet state
//!   gives its flow, which by those laws is a maximum flow.
//!
//! `State::quiet` takes constant time, and `State::waiting` passes over stretches of up to 262,144
//! blocks at once.
//!
//! An example: two blocks worth 4 rest on one worth -1. After a run of 140 steps the state is quiet, and [`replay`] of
//! the same steps leads to a flow that takes 1 from the source. A block that has 4 sees them when it reads its excess.
//! Tried in `machine_tests/src/steps.rt`.
//!
//! ```rust
//! same(rt, state.count(), steps);
//! holds(rt, state.quiet());
//!
//! let mut state = State::open(alloc, &net).expect(&rt, "memory");
//! make_rows(&rt, &mut state, &net);
//! is_quiet_after(&rt, &state, 140);
//!
//! let state = replay(alloc, net, events).expect(rt, "steps");
//! match state.into_flow(net) {
//!     Ok(flow) => flow,
//!     Err(_) => panic!(rt; "a state that isn't quiet"),
//! }
//!
//! let event = Event { block, kind: RE };
//! let saw = state.step(net, event).ok();
//! same(rt, saw, Some(Saw::Excess(worth(4))));
//! ```
#![tactic(auto)]

mod changing;
pub mod laws;
mod limits;
mod marks;
mod opening;
mod operations;
mod predicates;
mod pushing;
mod reading;
mod refusals;
mod replaying;
mod saw;
mod state;
mod stepping;

pub use limits::MOST_STEPS;
pub use machine_law::{Best, Event, Kind, Operation};
pub use refusals::{ReplayFault, StepRefusal};
pub use replaying::replay;
pub use saw::Saw;
pub use state::State;
