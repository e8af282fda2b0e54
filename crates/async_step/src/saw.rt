//! What a step tells whoever made it: the excess, capacity or label that was read, the amount that
//! was pushed, or the new label.

/// What a step saw, moved or raised.
#[derive(Clone, Copy, Debug, PartialEq, Eq)]
pub enum Saw<N> {
    /// The block's own excess.
    Excess(N),
    /// The capacity of the present port.
    Capacity(N),
    /// The label at the other end.
    Label(u64),
    /// The amount of the push.
    Moved(N),
    /// The block's new label.
    Raised(u64),
}
