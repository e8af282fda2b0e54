//! A certificate: a pit, and the flow that shows that it is best.

use crate::header::Price;
use closure_net::{Flow, Pit};
use ordered_group::OrderedGroup;

/// A pit, and the flow that shows that it is best.
#[derive(Drop)]
pub struct Certificate<G: OrderedGroup> {
    /// How many blocks the model has.
    pub blocks: u32,
    /// What the worths of its blocks are.
    pub price: Price,
    /// The pit.
    pub pit: Pit,
    /// The flow in the model's net.
    pub flow: Flow<G>,
}
