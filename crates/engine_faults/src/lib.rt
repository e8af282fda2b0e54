//! Why an engine can't answer: which of its inputs is at fault and how, or that memory, a device or a thread failed.
//!
//! Stands on the crates whose faults it names: those of files, of certificates and traces, of slopes, prices and nets.
//! Promises upward that each of their faults becomes the engine's fault of that input, and want of memory `Memory`,
//! and that a problem with an input prints the text of its fault.
//!
//! An example: `EngineFault::from(PrecFault::Number(1))` is `Prec(Problem::Fault(PrecFault::Number(1)))`, which
//! `check_engines` writes as `fault: prec Number(1)`; and from `PrecFault::NoMemory` it is `Memory`. Tried in
//! `tests/cases/prec/a_predecessor_that_is_no_number`.
#![tactic(auto)]

mod engine_fault;

pub use engine_fault::{CertificateProblem, EngineFault, Problem, SlopeProblem};
