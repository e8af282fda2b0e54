//! What the first four lines of a certificate say: the number of blocks, the price that their worths are of,
//! and the kind of amounts.

use ordered_group::Group;

/// What the worths of the blocks are.
#[derive(Clone, Copy, Debug, PartialEq, Eq)]
pub enum Price {
    /// The objective values of the block model, as they are.
    Objective,
    /// The values at a price factor in thousandths, from 0 to 10,000.
    Factor(u32),
    /// The values at such a factor where a block goes to the mill or to waste, whichever is worth more.
    Mill(u32),
}

/// What the first four lines of a certificate say.
#[derive(Clone, Copy, Debug, PartialEq, Eq)]
pub struct Header {
    /// How many blocks the model has, at most 2^24.
    pub blocks: u32,
    /// What the worths are.
    pub price: Price,
    /// The kind of the amounts.
    pub group: Group,
}

/// The version of a text: the second one has the prices where there is a mill, and the first one the others.
#[derive(Clone, Copy)]
pub enum Version {
    One,
    Two,
}

/// What the header must say, where the certificate is read for a model.
#[derive(Clone, Copy)]
pub struct Wanted {
    pub blocks: u32,
    pub group: Group,
}
