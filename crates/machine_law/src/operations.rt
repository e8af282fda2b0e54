//! What a block is doing between two of its steps: the phase of its push or relabel, with the
//! amounts and labels that it has read.

use closure_net::Port;

/// The port with the least label among those that were passed, as it was when it was read.
#[derive(Clone, Copy)]
pub struct Best<N> {
    /// The port.
    pub port: Port,
    /// Its capacity. Says nothing of a forward port, which is unlimited.
    pub capacity: N,
    /// The label at its other end.
    pub label: u64,
}

/// The operation of a block, by its phase. Its amounts are of type N.
#[derive(Clone, Copy)]
pub enum Operation<N> {
    /// There is none.
    Idle,
    /// The block looks at its ports, one after the other.
    Scan {
        /// The excess that it read.
        have: N,
        /// The place of the present port.
        place: u32,
        /// The capacity of the present port, once it is read.
        read: Option<N>,
        /// The best port of those before.
        best: Option<Best<N>>,
    },
    /// A push over the best port is due.
    PushDue {
        /// The excess that was read.
        have: N,
        /// The best port.
        best: Best<N>,
    },
    /// The capacity is changed; the amount is to be taken out of the block's excess.
    TakeDue {
        /// The amount of the push.
        amount: N,
        /// The port that it goes over.
        port: Port,
    },
    /// The amount is taken; it is to be given to the other end.
    GiveDue {
        /// The amount of the push.
        amount: N,
        /// The port that it goes over.
        port: Port,
    },
    /// The block is to rise above the best port.
    RaiseDue {
        /// The excess that was read.
        have: N,
        /// The best port.
        best: Best<N>,
    },
}
