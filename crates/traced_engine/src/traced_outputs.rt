//! Where a solve with a trace writes: the trace of the run and, after it, the answer.

/// The outputs of a solve with a trace. The trace is written first.
#[derive(Drop)]
pub struct TracedOutputs<V, W> {
    /// What the trace is written to.
    pub trace: V,
    /// What the answer is written to.
    pub out: W,
}
