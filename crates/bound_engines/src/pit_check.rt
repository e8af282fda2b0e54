//! Checks the pit of a certificate for a mine whose blocks are worth so much, as `check` does, and gives its blocks.

ghost use Rattle.std.specs.Prelude.{◌≡◌, ◌↔◌, ◌+◌, ◌-◌, ◌^◌, ◌<◌, All, List, ℕ, IfErr, IfOk, IsErrOf, length};
ghost use Rattle.check_pit.specs.CertStreams.{IsReadFor};
ghost use Rattle.check_pit.specs.declared.stream_fault.StreamFault.TheVariants as stream;
ghost use Rattle.closure_net.specs.Closure.{IsGreatest};
ghost use Rattle.closure_net.specs.Network.{IsAscending, holds_of};
ghost use Rattle.check_engines.specs.Judging.{IsUndecided, StandsAfter};
ghost use Rattle.check_engines.specs.Readings.{IsGroupNamed, IsHeader};
ghost use Rattle.mine_inputs.specs.Mines.{MineTexts};
ghost use Rattle.mine_inputs.specs.ReadMines.{AreRead};
ghost use Rattle.engine_faults.specs.declared.engine_fault.EngineFault.TheVariants as engine;
ghost use Rattle.schedule_engines.specs.declared.plan_fault.PlanFault.TheVariants as plan;
ghost use Rattle.planned_mine.specs.declared.bound_fault.BoundFault.TheVariants as bound;
ghost use Rattle.bound_engines.specs.Parts.{IsKeptBy, IsNoPit, IsPitTold};
ghost use Rattle.planned_mine.specs.TextFaults.{IsBeyondTexts};

use crate::nodes_judge::of_certificate;
use check_pit::{
    AcceptedPit, CertFault, CertStream, HeldGraph, PitFault, Room, StreamFault, check_held,
    graph_of_worths,
};
use closure_net::{NetFault, laws};
use counted_devices::CountedRead;
use engine_faults::{CertificateProblem, EngineFault};
use held_pairs::HeldPairs;
use ordered_group::{Group, OrderedGroup, Scaled, Worth, WorthSize};
use planned_mine::BoundFault;
use schedule_engines::PlanFault;
use std::alloc::{AllocError, Global};

/// What a certificate tells of the pit of a mine.
#[derive(Drop)]
pub(crate) enum PitTold {
    /// The blocks of its pit, which it proves.
    Kept(Vec<u32>),
    /// Nothing, for this reason.
    Refused(PitFault),
}

// What is answered where the mine has no net.
fn of_model(fault: NetFault) -> BoundFault
    ensures no_device { ¬ (result ≡ bound.Plan (plan.Engine engine.Device)) }
    ensures beyond { IsBeyondTexts result }
{
    match fault {
        NetFault::NoMemory => BoundFault::Plan(PlanFault::Engine(EngineFault::Memory)),
        fault => BoundFault::Plan(PlanFault::Engine(EngineFault::Model(fault))),
    }
}

// What is answered to a fault of the lines: one of the pit is told.
fn told_of(fault: StreamFault) -> Result<PitTold, BoundFault>
    ensures device { IsErrOf result (bound.Plan (plan.Engine engine.Device))
        ↔ fault ≡ stream.Device }
    ensures refused { IfOk result IsNoPit }
    ensures beyond { IfErr result IsBeyondTexts }
{
    match fault {
        StreamFault::Device => Err(BoundFault::Plan(PlanFault::Engine(EngineFault::Device))),
        StreamFault::InputTooLong => Err(of_certificate(CertificateProblem::InputTooLong)),
        StreamFault::Cert(CertFault::NoMemory) => {
            Err(BoundFault::Plan(PlanFault::Engine(EngineFault::Memory)))
        }
        StreamFault::Cert(fault) => Err(of_certificate(CertificateProblem::Fault(fault))),
        StreamFault::Pit(fault) => Ok(PitTold::Refused(fault)),
    }
}

// The blocks of a pit that was accepted.
fn blocks_of<G: OrderedGroup>(
    alloc: Global,
    accepted: &AcceptedPit<'_, G>,
) -> Result<Vec<u32>, AllocError>
    ensures is { IfOk result (λ v. v.items ≡ accepted.now.pit) }
    ensures ascending { IfOk result (λ v. IsAscending v.items) }
    ensures known { IfOk result (λ v. All (λ b. b < length accepted.now.net.worths) v.items) }
    ensures greatest { IfOk result (λ _. IsGreatest accepted.now.net (holds_of accepted.now.pit)) }
{
    Vec::from_slice(alloc, accepted.pit().blocks())
}

// Checks the stream after its header for this mine, in amounts of the group G.
fn pit_of_group<G: OrderedGroup, C: CountedRead>(
    alloc: Global,
    pairs: &HeldPairs,
    nanos: &[i128],
    stream: &mut CertStream<C>,
) -> Result<PitTold, BoundFault>
    requires count { C.failed stream.old.lines.from < 2 ^ 64 - 1 }
    requires open { IsUndecided stream.old }
    requires header { IsReadFor pairs.now.blocks G.name stream.old.header stream.old.fault }
    ensures told { (texts : MineTexts) (c : List ℕ)
        → AreRead texts nanos.now pairs.now
        → IsGroupNamed G.name G.block_parts G.counts
        → IsHeader texts c pairs.now.blocks G.name
        → StandsAfter C.remaining c stream.old.lines
        → IfOk result (IsPitTold texts pairs.now.blocks c) }
    ensures kept_blocks { IfOk result (IsKeptBy pairs.now.blocks) }
    ensures device { IsErrOf result (bound.Plan (plan.Engine engine.Device))
        → C.failed stream.new.lines.from ≡ C.failed stream.old.lines.from + 1 }
    ensures kept { ¬ IsErrOf result (bound.Plan (plan.Engine engine.Device))
        → C.failed stream.new.lines.from ≡ C.failed stream.old.lines.from }
    ensures beyond { IfErr result IsBeyondTexts }
{
    let graph = match graph_of_worths::<G>(alloc, pairs, nanos) {
        Ok(graph) => graph,
        Err(fault) => return Err(of_model(fault)),
    };
    let net = HeldGraph::with_pairs(graph.as_ref(), pairs);
    // proof: what is known of every net, that its pairs are of its blocks and in order
    let _worths = net.worths();
    let Ok(mut room) = Room::<G>::of_blocks(alloc, net.len()) else {
        return Err(BoundFault::Plan(PlanFault::Engine(EngineFault::Memory)));
    };
    match check_held(stream, net, &mut room) {
        Ok(accepted) => match blocks_of(alloc, &accepted) {
            Ok(kept) => Ok(PitTold::Kept(kept)),
            Err(_) => Err(BoundFault::Plan(PlanFault::Engine(EngineFault::Memory))),
        },
        Err(fault) => told_of(fault),
    }
}

/// What the certificate tells of the pit of a mine with these pairs, whose blocks are worth so many billionths, where
/// its header was read and names this group.
///
/// # Errors
/// As `check_engines::check_engine` answers them after the header: `Certificate` with the first fault, `Model` where an
/// amount of the net doesn't fit, `Device` where a read fails, and `Memory` where memory is refused.
pub(crate) fn check_pit<C: CountedRead>(
    alloc: Global,
    group: Group,
    pairs: &HeldPairs,
    nanos: &[i128],
    stream: &mut CertStream<C>,
) -> Result<PitTold, BoundFault>
    requires count { C.failed stream.old.lines.from < 2 ^ 64 - 1 }
    requires open { IsUndecided stream.old }
    requires header { IsReadFor pairs.now.blocks group stream.old.header stream.old.fault }
    ensures told { (texts : MineTexts) (c : List ℕ)
        → AreRead texts nanos.now pairs.now
        → IsHeader texts c pairs.now.blocks group
        → StandsAfter C.remaining c stream.old.lines
        → IfOk result (IsPitTold texts pairs.now.blocks c) }
    ensures kept_blocks { IfOk result (IsKeptBy pairs.now.blocks) }
    ensures device { IsErrOf result (bound.Plan (plan.Engine engine.Device))
        → C.failed stream.new.lines.from ≡ C.failed stream.old.lines.from + 1 }
    ensures kept { ¬ IsErrOf result (bound.Plan (plan.Engine engine.Device))
        → C.failed stream.new.lines.from ≡ C.failed stream.old.lines.from }
    ensures beyond { IfErr result IsBeyondTexts }
{
    // proof: a greatest set of the net is a pit that is worth most, and of amounts with sizes the best one
    laws::greatest_set_is_richest_pit();
    laws::greatest_set_is_best_pit::<WorthSize>();
    laws::greatest_set_is_best_pit::<Scaled>();
    match group {
        Group::Worth => pit_of_group::<Worth, C>(alloc, pairs, nanos, stream),
        Group::Pair => pit_of_group::<WorthSize, C>(alloc, pairs, nanos, stream),
        Group::Scaled => pit_of_group::<Scaled, C>(alloc, pairs, nanos, stream),
    }
}
