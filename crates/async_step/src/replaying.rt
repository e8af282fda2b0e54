//! Repeats a list of steps from the machine's first state: gives the state after them, or the place
//! of the first step that is refused.

ghost use Rattle.std.specs.Prelude.{MatchResult};
ghost use Rattle.machine_law.specs.States.{opening};
ghost use Rattle.machine_law.specs.Steps.{Run};
ghost use Rattle.async_step.specs.Views.{state_of};
ghost use Rattle.async_step.specs.Answers.{IsStateOf, ReplayFaultStands};

use crate::refusals::ReplayFault;
use crate::state::State;
use closure_net::Net;
use machine_law::Event;
use ordered_group::OrderedGroup;
use std::alloc::Global;

/// The state after these steps from the opening state.
///
/// # Errors
/// `Refused` with the place of the first step that is refused, counted from 1, and why it is.
/// `NoMemory` where memory for the state was refused.
pub fn replay<G: OrderedGroup>(
    alloc: Global,
    net: &Net<G>,
    events: &[Event],
) -> Result<State<G>, ReplayFault>
    ensures { MatchResult result
        (λ s. Run net.now (opening net.now) events.now (state_of s) × IsStateOf net.now s)
        (λ fault. ReplayFaultStands net.now events.now fault) }
{
    let Ok(mut state) = State::open(alloc, net) else {
        return Err(ReplayFault::NoMemory);
    };
    for i in 0..events.len() {
        let event = events[i];
        match state.step(net, event) {
            Ok(_) => {}
            Err(refusal) => return Err(ReplayFault::Refused(i + 1, refusal)),
        }
    }
    Ok(state)
}
