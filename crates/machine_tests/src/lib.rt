//! The tests of the push-relabel machine's crates, by their public calls: its steps, the boards on which they are made,
//! the workers under a lock, and the words and seats without one. They stand apart so that each of these crates is
//! proved once, and not again with its tests. Nothing stands on this crate.
#![tactic(auto)]

#[cfg(test)]
mod audited_runs;
#[cfg(test)]
mod board_turns;
#[cfg(test)]
mod gates;
#[cfg(test)]
mod known_runs;
#[cfg(test)]
mod small_nets;
#[cfg(test)]
mod steps;
#[cfg(test)]
mod turn_boards;
#[cfg(test)]
mod whole_runs;
#[cfg(test)]
mod word_runs;
#[cfg(test)]
mod word_seats;
#[cfg(test)]
mod worker_turns;
