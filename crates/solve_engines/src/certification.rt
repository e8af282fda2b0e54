//! The pit that a flow proves, whatever solver made it: the one place where a solver's flow is trusted or not.

ghost use Rattle.std.specs.Prelude.{◌≡◌, IfOk, MatchResult, IsErrOf};
ghost use Rattle.closure_net.specs.Network.{FlowFits};
ghost use Rattle.solve_engines.specs.Certification.{IsSolution, UncertifiedStands};

use check_engines::certificate_judge::size_and_worth;
use check_pit::{PitFault, check_in_memory};
use closure_net::{Flow, Net, Pit, pit_of};
use ordered_group::OrderedGroup;
use std::alloc::Global;

/// A pit of a net with a flow that proves it: a check has accepted them.
#[derive(Drop)]
pub struct Solution<G: OrderedGroup> {
    /// The pit.
    pub pit: Pit,
    /// The flow.
    pub flow: Flow<G>,
    /// The number of the pit's blocks.
    pub count: u32,
    /// What they are worth, in billionths.
    pub worth: i128,
}

/// Why a flow proves no pit.
#[derive(Clone, Copy, Debug, PartialEq, Eq)]
pub enum Uncertified {
    /// Memory was refused.
    NoMemory,
    /// The check of the flow, with the blocks that the source reaches in it, found this fault.
    Refused(PitFault),
}

/// Checks a flow of any origin, with the pit of the blocks that the source reaches in it, and returns both.
///
/// Nothing is asked of the flow: it may have wrong lengths, negative amounts, or prove nothing. So a solver
/// needs no proof of being right.
///
/// # Errors
/// `Refused` with the check's fault, which stands: `WrongSize` where the flow's lengths aren't the net's, before all
/// else. `NoMemory` where memory is refused.
pub fn certified<G: OrderedGroup>(
    alloc: Global,
    net: &Net<G>,
    flow: Flow<G>,
) -> Result<Solution<G>, Uncertified>
    ensures answer { MatchResult result
        (λ s. IsSolution G.set_worth net.now s.flow s.pit s.count s.worth)
        (λ why. UncertifiedStands net.now flow why) }
    ensures same { IfOk result (λ s. s.flow ≡ flow) }
    ensures sized { IsErrOf result Uncertified.NoMemory → FlowFits net.now flow }
{
    if !flow.fits(net) {
        return Err(Uncertified::Refused(PitFault::WrongSize));
    }
    let Ok(pit) = pit_of(alloc, net, &flow) else {
        return Err(Uncertified::NoMemory);
    };
    let (count, worth) = match check_in_memory(alloc, net, &pit, &flow) {
        Ok(accepted) => size_and_worth(accepted.on_graph()),
        Err(fault) => return Err(Uncertified::Refused(fault)),
    };
    Ok(Solution {
        pit,
        flow,
        count,
        worth,
    })
}
