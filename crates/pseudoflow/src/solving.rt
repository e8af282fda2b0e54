//! The public call: from a net and a bound on its turns to a flow, or why there is none.

ghost use Rattle.std.specs.Prelude.{◌≡◌, length, IfOk};
ghost use Rattle.closure_net.specs.Network.{FlowFits};

use crate::branches::{Branch, branches_of};
use crate::recovery::flow_of_forest;
use crate::reporting::Progress;
use crate::search::Search;
use closure_net::{Flow, Net};
use net_part::{
    Amount, Arcs, Budget, Labels, Link, Part, PseudoflowFault, Scale, WaysUp, amounts_of,
    small_worths,
};
use ordered_group::OrderedGroup;
use std::alloc::Global;

/// The forest that a search leaves, and the pit that it found.
#[derive(Drop)]
pub struct Grown {
    /// The forest, tree by tree.
    pub branches: Vec<Branch>,
    /// For each block of the mine whether it is in the pit.
    pub pit: Vec<bool>,
}

// The forest that a search of a part of a net of so many blocks leaves, and the pit.
fn searched<A: Amount, W: WaysUp, P: Progress>(
    alloc: Global,
    part: Part<W>,
    worths: Vec<A>,
    blocks: u32,
    budget: &mut Budget,
    progress: &P,
) -> Result<Grown, PseudoflowFault>
    requires { length worths.items ≡ part }
{
    let Part {
        blocks: of_net,
        above,
        labels,
        lifted,
    } = part;
    let mut search = Search::open(alloc, above, labels, worths.as_slice())?;
    drop(worths);
    search.run(lifted, blocks, budget, progress)?;
    let branches = branches_of(alloc, &search.forest, &of_net, budget)?;
    let pit = lifted_blocks(alloc, &search.labels, &of_net, search.above.len(), blocks)?;
    Ok(Grown { branches, pit })
}

// Of n blocks of a net those of a search, so many, that were lifted.
fn lifted_blocks(
    alloc: Global,
    labels: &Labels,
    of_net: &[Link],
    count: u32,
    n: u32,
) -> Result<Vec<bool>, PseudoflowFault>
    requires labels { count ≡ labels.now }
    requires blocks { count ≡ length of_net.now }
{
    let mut pit = vec![in alloc; false; n as usize]?;
    for k in 0..count {
        if let Some(b) = of_net[k as usize].block(n as usize)
            && labels.is_lifted(k)
        {
            pit[b as usize] = true;
        }
    }
    Ok(pit)
}

/// Grows the forest of a part of a mine of so many blocks, whose blocks are worth so many billionths each, and finds
/// the pit in it. The search counts in units, of 64 bits where these do; so what is common to all worths is divided
/// out.
///
/// Nothing is promised of either: a checker judges what is made of them. [`flow_of_forest`](crate::flow_of_forest)
/// makes the flow.
///
/// # Errors
/// Those of [`solve`]; `TooLarge` also where 128 bits are too few for units.
pub fn grow<W: WaysUp, P: Progress>(
    alloc: Global,
    part: Part<W>,
    worths: Vec<i128>,
    blocks: u32,
    budget: &mut Budget,
    progress: &P,
) -> Result<Grown, PseudoflowFault>
    requires { length worths.items ≡ part }
{
    let scale = Scale::of(worths.as_slice(), part.above.len());
    if let Some(units) = scale.small_units(alloc, worths.as_slice())? {
        drop(worths);
        return searched(alloc, part, units, blocks, budget, progress);
    }
    let units = scale.large_units(alloc, worths.as_slice())?;
    drop(worths);
    searched(alloc, part, units, blocks, budget, progress)
}

// The forest that a search of a part of the net leaves: over units, of 64 bits where these do, or else over the net's
// amounts.
fn forest_of<G: OrderedGroup, P: Progress>(
    alloc: Global,
    net: &Net<G>,
    part: Part<Arcs>,
    budget: &mut Budget,
    progress: &P,
) -> Result<Grown, PseudoflowFault> {
    let n = net.len();
    let Some(worths) = small_worths(alloc, net, &part.blocks)? else {
        let amounts = amounts_of(alloc, net, &part.blocks)?;
        return searched(alloc, part, amounts, n, budget, progress);
    };
    grow(alloc, part, worths, n, budget, progress)
}

/// A flow of the net, by highest-label pseudoflow (Hochbaum 2008).
///
/// It has an amount for each block and each pair of the net. Nothing else is promised of it: that it is a greatest
/// flow, and that the blocks which the source reaches in what it leaves are the pit, is for a checker to say.
///
/// At most `turns` turns are taken, of which each is one look at a block, at a pair or at a label. Models of mines take
/// 1 to 75 for each block and pair. A chain in which each block rests on the next, the positive ones below, takes a
/// number that grows with the square of the blocks.
///
/// # Errors
/// `Unsettled` only where all turns are used up; `TooLarge` where a sum or a difference of amounts doesn't fit;
/// `NoMemory` where memory was refused; `Broken` where the search made a mistake, which no net is known to bring about.
pub fn solve<G: OrderedGroup, P: Progress>(
    alloc: Global,
    net: &Net<G>,
    turns: u64,
    progress: &P,
) -> Result<Flow<G>, PseudoflowFault>
    ensures { IfOk result (λ flow. FlowFits net.now flow) }
{
    let mut budget = Budget { left: turns };
    let part = Part::of(alloc, net, &mut budget)?;
    let grown = forest_of(alloc, net, part, &mut budget, progress)?;
    flow_of_forest(alloc, net, &grown.branches)
}
