//! Solves a net by a run that writes down its steps: writes the trace of the run, and then a certificate, or why
//! there is none.

ghost use Rattle.std.specs.Prelude.{◌≡◌, ◌+◌, ◌-◌, ◌^◌, ◌<◌, ◌↔◌, ℕ, List, MatchResult, IsErrOf, Ok, Err};
ghost use Rattle.machine_law.specs.declared.events.Event.{Event};
ghost use Rattle.certificate_file.specs.ReadBack.{IsPrice};
ghost use Rattle.workers.specs.Auditing.{IsAudit};
ghost use Rattle.traced_engine.specs.TracedRuns.{TellsRun, TracesNet, no_flow_line};

use crate::traced_outputs::TracedOutputs;
use check_engines::Verdict;
use check_pit::Price;
use closure_net::{Flow, Net};
use counted_devices::CountedWrite;
use engine_faults::EngineFault;
use option_words::Effort;
use ordered_group::OrderedGroup;
use solve_engines::Outcome;
use solve_engines::certification::{Uncertified, certified};
use solve_engines::net_answer::{line_of_no, write_answer, write_no};
use solve_engines::solvers::Unsolved;
use std::alloc::Global;
use std::sync::Wait;
use std::thread::Threads;
use trace_file::write_trace;
use workers::{AuditEnd, AuditFault, Audited, Gate, Locked, Shared, solve_audited};

/// What a run over a net with a trace is asked for.
#[derive(Clone, Copy)]
pub struct RunAsked {
    /// The price that the certificate names.
    pub price: Price,
    /// The workers of the run and its most steps, whatever its method.
    pub effort: Effort,
    /// The most steps of the trace.
    pub room: u32,
}

/// Makes a run over a net by the effort's workers, with room for so many events in its history, and writes the history
/// to the output of the trace. Then writes to `outputs.out` the certificate of the flow that the run leaves, once a
/// check has accepted it, or a line that says why there is none.
///
/// # Errors
/// `Memory`, `Thread` and `Stranger` from the run: nothing was written. `Memory` from the check: the trace is complete.
/// `Device` where a write fails: there is a prefix of the trace, or the whole trace and a prefix of the answer.
pub fn trace_net<
    G: OrderedGroup,
    R: Threads + Wait + Sync,
    T: Gate + Outcome,
    V: CountedWrite,
    W: CountedWrite,
>(
    rt: &R,
    alloc: Global,
    net: &Net<G>,
    asked: RunAsked,
    gate: &T,
    outputs: &mut TracedOutputs<V, W>,
) -> Result<Verdict, EngineFault>
where
    Locked<Audited<G>>: Shared,
    requires price { IsPrice asked.price }
    requires trace_room { V.failed outputs.old.trace < 2 ^ 64 - 1 }
    requires out_room { W.failed outputs.old.out < 2 ^ 64 - 1 }
    ensures answer { TracesNet G.counts G.name asked.price net.now asked.effort.steps asked.room
        (V.contents outputs.old.trace) (V.contents outputs.new.trace)
        (W.contents outputs.old.out) (W.contents outputs.new.out) result }
    ensures device { IsErrOf result EngineFault.Device
        → V.failed outputs.new.trace + W.failed outputs.new.out
        ≡ V.failed outputs.old.trace + W.failed outputs.old.out + 1 }
    ensures kept { ¬ IsErrOf result EngineFault.Device
        → (V.failed outputs.new.trace ≡ V.failed outputs.old.trace)
        × (W.failed outputs.new.out ≡ W.failed outputs.old.out) }
{
    let RunAsked {
        price,
        effort,
        room,
    } = asked;
    let run = solve_audited(rt, alloc, net, effort.workers, effort.steps, room, gate);
    let AuditFault { fault, history } = match run {
        Ok(audit) => {
            write_trace(audit.history.as_slice(), &mut outputs.trace)?;
            return tell_flow(alloc, net, price, audit.flow, gate, &mut outputs.out);
        }
        Err(ended) => ended,
    };
    let line = line_of_end(fault)?;
    write_trace(history.as_slice(), &mut outputs.trace)?;
    write_no(line, &mut outputs.out)
}

// The line that says why a run gave no flow.
fn line_of_end(end: AuditEnd) -> Result<&'static [u8], EngineFault>
    ensures line { MatchResult result
        (λ line. no_flow_line end ≡ Ok line.now)
        (λ fault. no_flow_line end ≡ Err fault) }
    ensures no_device { ¬ IsErrOf result EngineFault.Device }
{
    match end {
        AuditEnd::HistoryFull => Ok(b"HISTORYFULL\n"),
        AuditEnd::NoFlow(why) => line_of_no(Unsolved::from(why)),
    }
}

// Writes the certificate of the flow that a run leaves, or that a sum of its check doesn't fit.
fn tell_flow<G: OrderedGroup, T: Outcome, W: CountedWrite>(
    alloc: Global,
    net: &Net<G>,
    price: Price,
    flow: Flow<G>,
    watch: &T,
    out: &mut W,
) -> Result<Verdict, EngineFault>
    requires price { IsPrice price }
    requires room { W.failed out.old < 2 ^ 64 - 1 }
    ensures answer { (limit room : ℕ) → (history : List Event)
        → IsAudit net.now limit room flow history
        → TellsRun G.counts G.name price net.now limit room history
        (W.contents out.old) (W.contents out.new) result }
    ensures device { IsErrOf result EngineFault.Device ↔ (W.failed out.new ≡ W.failed out.old + 1) }
    ensures kept { ¬ IsErrOf result EngineFault.Device → W.failed out.new ≡ W.failed out.old }
{
    match certified(alloc, net, flow) {
        Ok(solution) => write_answer(net, price, Ok(solution), watch, out),
        Err(Uncertified::NoMemory) => Err(EngineFault::Memory),
        // what the source reaches in a greatest flow is closed and tight, so only sums that overflow are left
        Err(Uncertified::Refused(_)) => write_no(b"REFUSED TooLarge\n", out),
    }
}
