//! Decides by a check whether the flow that a repeated run left proves a pit.

ghost use Rattle.std.specs.Prelude.{IfOk};
ghost use Rattle.machine_law.specs.Quiet.{IsSolved};
ghost use Rattle.mine_inputs.specs.Mines.{MineTexts};
ghost use Rattle.check_engines.specs.Readings.{IsGroupNamed};
ghost use Rattle.solve_engines.specs.Solving.{IsNetBy};
ghost use Rattle.replay_engines.specs.Outcomes.{IsFlowJudged};

use check_engines::Judgement;
use closure_net::{Flow, Net};
use ordered_group::OrderedGroup;
use solve_engines::certification::{Uncertified, certified};
use std::alloc::{AllocError, Global};

/// What a check says of a flow that solves a net, with the pit of the blocks that the source reaches in it.
///
/// # Errors
/// Memory was refused.
pub fn judge_flow<G: OrderedGroup>(
    alloc: Global,
    net: &Net<G>,
    flow: Flow<G>,
) -> Result<Judgement, AllocError>
    ensures { IfOk result (λ judgement. (texts : MineTexts) → IsSolved net.now flow
        → IsNetBy texts G.name net.now
        → IsGroupNamed G.name G.block_parts G.counts
        → IsFlowJudged texts G.name net.now flow judgement) }
{
    match certified(alloc, net, flow) {
        Ok(solution) => Ok(Judgement::Accepted {
            group: G::group(),
            count: solution.count,
            worth: solution.worth,
        }),
        Err(Uncertified::Refused(fault)) => Ok(Judgement::Refused(fault)),
        Err(Uncertified::NoMemory) => Err(AllocError),
    }
}
