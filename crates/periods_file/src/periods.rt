//! What periods say: what each weighs, the columns of the resources, and row by row for each resource what each period
//! has of it and at what price; and which blocks wait for which, and how long.

/// What periods say.
#[derive(Drop)]
pub struct Periods {
    /// What each period weighs in millionths, from 0 to 1,000,000 and at most as much as the one before it: 1 to 1,000
    /// of them.
    pub weights: Vec<u64>,
    /// The columns of what blocks use of the resources: a row for each resource, with a column for each way to treat a
    /// block, or one where there are no ways.
    pub resources: Vec<u32>,
    /// Whether each resource, of which there are at most 8, has one column for all ways, and for waste too.
    pub shared: Vec<bool>,
    /// What each period has of each resource, in whole units, at most 10^12: a row for each resource.
    pub capacities: Vec<u64>,
    /// The price of each resource in each period in billionths, at most 10^15, where there are prices: a row for each
    /// resource.
    pub multipliers: Option<Vec<u64>>,
    /// The columns of the blocks for which blocks wait, at most 8: of none where the text has no such key.
    pub waits: Vec<u32>,
    /// How many periods they wait, from 1 to 1,000.
    pub lag: u32,
}
