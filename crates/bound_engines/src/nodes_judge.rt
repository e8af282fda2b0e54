//! Judges a certificate of nodes while it is read: takes the factor from its header, and gives what its pit is worth.

ghost use Rattle.std.specs.Prelude.{◌≡◌, ◌↔◌, ◌+◌, ◌-◌, ◌^◌, ◌<◌, IfErr, IfOk, IfSome, IsErrOf};
ghost use Rattle.ordered_group.specs.declared.groups.Group.TheVariants as group;
ghost use Rattle.check_pit.specs.CertStreams.{IsReadFor};
ghost use Rattle.check_pit.specs.declared.stream_fault.StreamFault.TheVariants as stream;
ghost use Rattle.check_engines.specs.Judging.{IsFresh, IsUndecided, factor_in};
ghost use Rattle.engine_faults.specs.declared.engine_fault.EngineFault.TheVariants as engine;
ghost use Rattle.schedule_engines.specs.declared.plan_fault.PlanFault.TheVariants as plan;
ghost use Rattle.planned_mine.specs.declared.bound_fault.BoundFault.TheVariants as bound;
ghost use Rattle.bound_engines.specs.Bounded.{IsJudgedOf, IsRefusal};
ghost use Rattle.planned_mine.specs.TextFaults.{IsBeyondTexts};

use check_pit::{
    CertFault, CertStream, HeldGraph, PitFault, Room, StreamFault, check_held, graph_of_worths,
};
use counted_devices::CountedRead;
use engine_faults::{CertificateProblem, EngineFault};
use held_pairs::HeldPairs;
use mine_inputs::Worths;
use ordered_group::{Group, Worth};
use planned_mine::{BoundFault, of_net};
use schedule_engines::PlanFault;
use shells::Factor;
use std::alloc::Global;

/// What a certificate of nodes proves.
#[derive(Clone, Copy, Debug, PartialEq, Eq)]
pub(crate) enum NodesJudged {
    /// Its pit is worth so much, and none is worth more.
    Richest(i128),
    /// Nothing, for this reason.
    Refused(PitFault),
}

/// A fault of the certificate.
pub fn of_certificate(problem: CertificateProblem) -> BoundFault
    ensures beyond { IsBeyondTexts result }
    ensures no_device { ¬ (result ≡ bound.Plan (plan.Engine engine.Device)) }
{
    BoundFault::Plan(PlanFault::Engine(EngineFault::Certificate(problem)))
}

// What is answered to a fault of a certificate; one of its pit is a judgement.
fn judged_of(fault: StreamFault) -> Result<NodesJudged, BoundFault>
    ensures device { IsErrOf result (bound.Plan (plan.Engine engine.Device))
        ↔ fault ≡ stream.Device }
    ensures refused { IfOk result IsRefusal }
    ensures beyond { IfErr result IsBeyondTexts }
{
    match fault {
        StreamFault::Device => Err(BoundFault::Plan(PlanFault::Engine(EngineFault::Device))),
        StreamFault::InputTooLong => Err(of_certificate(CertificateProblem::InputTooLong)),
        StreamFault::Cert(CertFault::NoMemory) => {
            Err(BoundFault::Plan(PlanFault::Engine(EngineFault::Memory)))
        }
        StreamFault::Cert(fault) => Err(of_certificate(CertificateProblem::Fault(fault))),
        StreamFault::Pit(fault) => Ok(NodesJudged::Refused(fault)),
    }
}

// What is answered to a fault of a certificate's header.
pub(crate) fn header_fault(fault: StreamFault) -> BoundFault
    ensures beyond { IsBeyondTexts result }
    ensures device { result ≡ bound.Plan (plan.Engine engine.Device) ↔ fault ≡ stream.Device }
{
    match judged_of(fault) {
        Err(fault) => fault,
        // a header has no fault of a pit
        Ok(_) => of_certificate(CertificateProblem::Fault(CertFault::Truncated)),
    }
}

/// Reads the header of a certificate of so many nodes, in which worth alone is counted, and gives the factor that it
/// names.
///
/// # Errors
/// `Certificate` with the first fault of the header, where it has another number of nodes or another group, or with
/// `WrongPrice`; `Device` where a read fails.
pub(crate) fn factor_from<C: CountedRead>(
    worths: &Worths,
    nodes: u32,
    stream: &mut CertStream<C>,
) -> Result<Factor, BoundFault>
    requires count { C.failed stream.old.lines.from < 2 ^ 64 - 1 }
    requires fresh { IsFresh stream.old }
    ensures factor { IfSome (C.remaining stream.old.lines.from)
        (λ c. IfOk result (λ factor. factor ≡ factor_in c)) }
    ensures header { IfOk result
        (λ _. IsReadFor nodes group.Worth stream.new.header stream.new.fault) }
    ensures open { IfOk result (λ _. IsUndecided stream.new) }
    ensures device { IsErrOf result (bound.Plan (plan.Engine engine.Device))
        → C.failed stream.new.lines.from ≡ C.failed stream.old.lines.from + 1 }
    ensures kept { ¬ IsErrOf result (bound.Plan (plan.Engine engine.Device))
        → C.failed stream.new.lines.from ≡ C.failed stream.old.lines.from }
    ensures beyond { IfErr result IsBeyondTexts }
{
    let header = match stream.header() {
        Ok(header) => header,
        Err(fault) => return Err(header_fault(fault)),
    };
    if header.blocks != nodes {
        return Err(of_certificate(CertificateProblem::Fault(CertFault::Number(2))));
    }
    if header.group != Group::Worth {
        return Err(of_certificate(CertificateProblem::Fault(CertFault::Text(4))));
    }
    match worths.factor_of(header.price) {
        Some(factor) => Ok(factor),
        None => Err(of_certificate(CertificateProblem::WrongPrice)),
    }
}

/// What the certificate proves of nodes with these pairs and worths, where its header was read.
///
/// # Errors
/// `Certificate` with the first fault after the header; `Nodes` where a sum of the net doesn't fit; `Device` where a
/// read fails, and `Memory` where memory is refused.
pub(crate) fn judge_nodes<C: CountedRead>(
    alloc: Global,
    pairs: &HeldPairs,
    worths: &[i128],
    stream: &mut CertStream<C>,
) -> Result<NodesJudged, BoundFault>
    requires count { C.failed stream.old.lines.from < 2 ^ 64 - 1 }
    requires open { IsUndecided stream.old }
    requires header { IsReadFor pairs.now.blocks group.Worth stream.old.header stream.old.fault }
    ensures is { IfOk result (IsJudgedOf pairs.now worths.now) }
    ensures device { IsErrOf result (bound.Plan (plan.Engine engine.Device))
        → C.failed stream.new.lines.from ≡ C.failed stream.old.lines.from + 1 }
    ensures kept { ¬ IsErrOf result (bound.Plan (plan.Engine engine.Device))
        → C.failed stream.new.lines.from ≡ C.failed stream.old.lines.from }
    ensures beyond { IfErr result IsBeyondTexts }
{
    let graph = match graph_of_worths::<Worth>(alloc, pairs, worths) {
        Ok(graph) => graph,
        Err(fault) => return Err(of_net(fault)),
    };
    let net = HeldGraph::with_pairs(graph.as_ref(), pairs);
    // proof: what is known of every net, that its pairs are of its blocks and in order
    let _worths = net.worths();
    let Ok(mut room) = Room::<Worth>::of_blocks(alloc, net.len()) else {
        return Err(BoundFault::Plan(PlanFault::Engine(EngineFault::Memory)));
    };
    match check_held(stream, net, &mut room) {
        Ok(accepted) => Ok(NodesJudged::Richest(accepted.worth().nanos)),
        Err(fault) => judged_of(fault),
    }
}
