//! Judges a certificate of the nodes of a pit's blocks, and gives the bound that it proves.

ghost use Rattle.std.specs.Prelude.{◌≡◌, ◌+◌, ◌-◌, ◌^◌, ◌<◌, IfErr, IfOk, IfSome, IsErrOf};
ghost use Rattle.check_engines.specs.Judging.{IsFresh, factor_in};
ghost use Rattle.engine_faults.specs.declared.engine_fault.EngineFault.TheVariants as engine;
ghost use Rattle.schedule_engines.specs.declared.plan_fault.PlanFault.TheVariants as plan;
ghost use Rattle.planned_mine.specs.declared.bound_fault.BoundFault.TheVariants as bound;
ghost use Rattle.bound_engines.specs.Bounded.{IsToldIn};
ghost use Rattle.planned_mine.specs.PlannedNodes.{IsSound};
ghost use Rattle.bound_engines.specs.Parts.{IsToldAt};
ghost use Rattle.planned_mine.specs.TextFaults.{IsBeyondTexts};

use crate::bound_judge::{BoundJudgement, bound_after, factor_of_nodes};
use crate::nodes_judge::of_certificate;
use crate::same_price::is_same_price;
use check_pit::{CertStream, StreamBytes};
use counted_devices::CountedRead;
use engine_faults::{CertificateProblem, EngineFault};
use mine_inputs::Worths;
use planned_mine::{BoundFault, Figured};
use schedule_engines::PlanFault;
use shells::Factor;
use std::alloc::Global;

/// What the blocks of a pit have of a mine and its periods, where blocks are worth so much at the factor that the pit's
/// certificate names.
#[derive(Drop)]
pub struct PartCase {
    /// Where memory is taken.
    pub alloc: Global,
    /// What the blocks of the whole mine are worth.
    pub worths: Worths,
    /// That factor.
    pub factor: Factor,
    /// What the pit's blocks have, by each way to treat them.
    pub figured: Figured,
}

// The bound of a certificate of which nothing was read.
fn told_from<C: CountedRead>(
    part: PartCase,
    stream: &mut CertStream<C>,
) -> Result<BoundJudgement, BoundFault>
    requires sound { IsSound part.figured }
    requires count { C.failed stream.old.lines.from < 2 ^ 64 - 1 }
    requires fresh { IsFresh stream.old }
    ensures told { IfOk result (IsToldIn part.figured) }
    ensures price { IfSome (C.remaining stream.old.lines.from) (λ c. IfOk result
        (λ _. IsToldAt part.worths part.factor (factor_in c))) }
    ensures device { IsErrOf result (bound.Plan (plan.Engine engine.Device))
        → C.failed stream.new.lines.from ≡ C.failed stream.old.lines.from + 1 }
    ensures kept { ¬ IsErrOf result (bound.Plan (plan.Engine engine.Device))
        → C.failed stream.new.lines.from ≡ C.failed stream.old.lines.from }
    ensures beyond { IfErr result IsBeyondTexts }
{
    let PartCase {
        alloc,
        worths,
        factor,
        figured,
    } = part;
    let periods = figured.figures.periods() as usize;
    let named = match factor_of_nodes(&worths, figured.predecessors.len(), periods, stream) {
        Ok(named) => named,
        Err(fault) => return Err(fault),
    };
    if !is_same_price(&worths, factor, named) {
        return Err(of_certificate(CertificateProblem::WrongPrice));
    }
    bound_after(alloc, figured, stream)
}

/// The bound that the certificate of a device proves for the blocks of a pit. It has to name the price at which the pit
/// was proved. The device is handed back.
///
/// # Errors
/// Those of `judge_bound`, and `Certificate` with `WrongPrice` also where the price is another one.
pub fn judge_part<C: CountedRead>(
    device: C,
    case: PartCase,
) -> (C, Result<BoundJudgement, BoundFault>)
    requires sound { IsSound case.figured }
    requires count { C.failed device < 2 ^ 64 - 1 }
    ensures told { IfOk result.1 (IsToldIn case.figured) }
    ensures price { IfSome (C.remaining device) (λ c. IfOk result.1
        (λ _. IsToldAt case.worths case.factor (factor_in c))) }
    ensures device { IsErrOf result.1 (bound.Plan (plan.Engine engine.Device))
        → C.failed result.0 ≡ C.failed device + 1 }
    ensures kept { ¬ IsErrOf result.1 (bound.Plan (plan.Engine engine.Device))
        → C.failed result.0 ≡ C.failed device }
    ensures beyond { IfErr result.1 IsBeyondTexts }
{
    let Ok(held) = StreamBytes::new(case.alloc) else {
        let fault = BoundFault::Plan(PlanFault::Engine(EngineFault::Memory));
        return (device, Err(fault));
    };
    let mut stream = CertStream::over(held, device);
    let told = told_from(case, &mut stream);
    (stream.into_device(), told)
}
