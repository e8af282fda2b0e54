//! Finds the best pit of some of a mine's blocks at a factor: by a list of the pairs among them, or by their places,
//! whichever holds who rests on whom.

ghost use Rattle.std.specs.Prelude.{◌≡◌, ◌<◌, ◌≤◌, ℕ, All, IsTrue, IfOk, IfSome, MatchResult, length, map};
ghost use Rattle.ordered_group.specs.Block.{scaled_block};
ghost use Rattle.closure_net.specs.Closure.{IsGreatest};
ghost use Rattle.closure_net.specs.Faults.{WorthsFaultStands};
ghost use Rattle.closure_net.specs.Network.{IsAscending, holds_of};
ghost use Rattle.places.specs.Grids.{gridded};
ghost use Rattle.places.specs.Implied.{implied};
ghost use Rattle.design_value.specs.Sums.{marked_in};
ghost use Rattle.shells.specs.Prices.{priced_count, worth_at};
ghost use Rattle.sub_mines.specs.AmongGrids.{among as among_view};
ghost use Rattle.series_pits.specs.PitsAtFactors.{IsBestOf};
ghost use Rattle.series_pits.specs.Parting.{IsBestAmong, IsFewNet, IsNetAmong};

use crate::best_pits::{BestPit, best_of};
use crate::series_mine::SeriesMine;
use check_pit::check_in_memory;
use closure_net::{Flow, Net, NetFault, Pit, laws};
use design_value::is_closed;
use grid_flow::grow_by_places;
use net_part::PseudoflowFault;
use ordered_group::Scaled;
use places::{Grid, HeldRef, Precedence};
use prec_file::Predecessors;
use pseudoflow::{Grown, Silent, flow_of_forest};
use shells::{Factor, Prices, all_held};
use solve_engines::placed_solver::{few_rests, pit_by};
use solve_engines::solvers::by_pseudoflow;
use std::alloc::{AllocError, Global};
use sub_mines::{AmongGrid, rests_among};

// What these blocks are worth at a factor, in their order.
fn worths_among(
    alloc: Global,
    prices: &Prices,
    kept: &[u32],
    factor: Factor,
) -> Result<Vec<i128>, AllocError>
    requires { All (λ b. b < priced_count prices.now) kept.now }
    ensures { IfOk result (λ v. v.items ≡ map (worth_at prices.now factor) kept.now) }
{
    let mut worths = Vec::with_capacity(alloc, kept.len())?;
    for b in kept {
        worths.push(prices.worth(*b, factor))?;
    }
    Ok(worths)
}

// The net of these blocks alone, by their places in the list.
//
// `TooLarge` exactly where an amount doesn't fit, `NoMemory` where memory is refused, and no other fault.
fn net_among(
    alloc: Global,
    prices: &Prices,
    predecessors: &Predecessors,
    kept: &[u32],
    factor: Factor,
) -> Result<Net<Scaled>, NetFault>
    requires ascending { IsAscending kept.now }
    requires below { All (λ b. b < predecessors.now.blocks) kept.now }
    requires size { length kept.now ≤ predecessors.now.blocks }
    requires priced { All (λ b. b < priced_count prices.now) kept.now }
    ensures { MatchResult result
        (IsNetAmong scaled_block predecessors.now.pairs prices.now kept.now factor)
        (WorthsFaultStands scaled_block (length kept.now)
        (map (worth_at prices.now factor) kept.now)) }
{
    let Ok(small) = rests_among(alloc, predecessors, kept) else {
        return Err(NetFault::NoMemory);
    };
    let Ok(worths) = worths_among(alloc, prices, kept, factor) else {
        return Err(NetFault::NoMemory);
    };
    Net::<Scaled>::of_worths(alloc, small, worths.as_slice())
}

// The best pit of a net at a factor, where pseudoflow finds it and a check accepts its flow.
fn quick_best(
    alloc: Global,
    net: &Net<Scaled>,
    factor: Factor,
    turns: u64,
) -> Result<Option<BestPit>, AllocError>
    ensures { IfOk result (λ o. IfSome o (IsBestOf scaled_block net.now factor)) }
{
    match by_pseudoflow(alloc, net, turns, &Silent)? {
        Some(solution) => Ok(Some(best_of(factor, solution))),
        None => Ok(None),
    }
}

// The best pit of these blocks alone, by a list of the pairs among them: none where the amounts of their net don't fit,
// or it isn't found.
fn listed_pit(
    alloc: Global,
    prices: &Prices,
    predecessors: &Predecessors,
    kept: &[u32],
    factor: Factor,
    turns: u64,
) -> Result<Option<Pit>, AllocError>
    requires ascending { IsAscending kept.now }
    requires below { All (λ b. b < predecessors.now.blocks) kept.now }
    requires size { length kept.now ≤ predecessors.now.blocks }
    requires priced { All (λ b. b < priced_count prices.now) kept.now }
    ensures { IfOk result
        (λ o. IfSome o (IsBestAmong predecessors.now.pairs prices.now kept.now factor)) }
{
    let net = match net_among(alloc, prices, predecessors, kept, factor) {
        Ok(net) => net,
        Err(NetFault::NoMemory) => return Err(AllocError),
        Err(_) => return Ok(None),
    };
    let Some(best) = quick_best(alloc, &net, factor, turns)? else {
        return Ok(None);
    };
    Ok(Some(best.pit))
}

// A net with the pairs alone over which something flows, and a flow and a pit of it that nobody has judged.
#[derive(Drop)]
struct Draft {
    net: Net<Scaled>,
    flow: Flow<Scaled>,
    pit: Pit,
}

// What a search over the places of these blocks finds.
fn draft_among(
    alloc: Global,
    prices: &Prices,
    among: &AmongGrid<'_>,
    kept: &[u32],
    factor: Factor,
    turns: u64,
) -> Result<Option<Draft>, AllocError>
    requires size { length kept.now ≡ (among_view among.now).blocks }
    requires priced { All (λ b. b < priced_count prices.now) kept.now }
    ensures { IfOk result (λ o. IfSome o
        (λ d. IsFewNet scaled_block (among_view among.now) prices.now kept.now factor d.net)) }
{
    // proof: there are few blocks
    let blocks = Precedence::len(among);
    let worths = worths_among(alloc, prices, kept, factor)?;
    let Grown { branches, pit } = match grow_by_places(
        alloc,
        among,
        worths.as_slice(),
        turns,
        &Silent,
    ) {
        Ok(grown) => grown,
        Err(PseudoflowFault::NoMemory) => return Err(AllocError),
        Err(_) => return Ok(None),
    };
    let Some(few) = few_rests(alloc, &branches, blocks) else {
        return Ok(None);
    };
    if !all_held(&few, among) {
        return Ok(None);
    }
    let Ok(net) = Net::<Scaled>::of_worths(alloc, few, worths.as_slice()) else {
        return Ok(None);
    };
    drop(worths);
    let Ok(flow) = flow_of_forest(alloc, &net, &branches) else {
        return Ok(None);
    };
    let Some(pit) = pit_by(alloc, &pit, blocks) else {
        return Ok(None);
    };
    Ok(Some(Draft { net, flow, pit }))
}

// Whether a check accepts the flow for the pit.
fn is_accepted(alloc: Global, draft: &Draft) -> bool
    ensures { IsTrue result → IsGreatest draft.now.net (holds_of draft.now.pit) }
{
    match check_in_memory(alloc, &draft.net, &draft.pit, &draft.flow) {
        Ok(accepted) => {
            // proof: no closed set of the net sums to more
            let _pit = accepted.pit();
            true
        }
        Err(_) => false,
    }
}

// For each of n blocks whether it is in a pit.
fn marks_of(alloc: Global, pit: &Pit, n: u32) -> Result<Vec<bool>, AllocError>
    ensures size { IfOk result (λ marks. length marks.items ≡ n) }
    ensures are { IfOk result
        (λ marks. (b : ℕ) → b < n → marked_in marks.items b ≡ holds_of pit.now b) }
{
    let mut marks: Vec<bool> = Vec::with_capacity(alloc, n as usize)?;
    let mut near = 0;
    for b in 0..n {
        marks.push(pit.holds_near(&mut near, b))?;
    }
    Ok(marks)
}

// The best pit of these blocks alone, by a search over their places. Of the pairs among them the net of its flow has
// few, so that a pit that is the best one of this net is that of all pairs, where it is closed under them: none where
// it isn't found, or isn't closed.
fn placed_pit(
    alloc: Global,
    prices: &Prices,
    grid: &Grid,
    kept: &[u32],
    factor: Factor,
    turns: u64,
) -> Result<Option<Pit>, AllocError>
    requires ascending { IsAscending kept.now }
    requires below { All (λ b. b < length grid.now.lows) kept.now }
    requires size { length kept.now ≤ length grid.now.lows }
    requires priced { All (λ b. b < priced_count prices.now) kept.now }
    ensures { IfOk result (λ o. IfSome o
        (IsBestAmong (implied (gridded grid.now)).pairs prices.now kept.now factor)) }
{
    // proof: a greatest closed set is the best pit
    laws::greatest_set_is_best_pit::<Scaled>();
    let among = AmongGrid::of(alloc, grid, kept)?;
    // proof: what every precedence is
    let blocks = Precedence::len(&among);
    let Some(draft) = draft_among(alloc, prices, &among, kept, factor, turns)? else {
        return Ok(None);
    };
    if !is_accepted(alloc, &draft) {
        return Ok(None);
    }
    let marks = marks_of(alloc, &draft.pit, blocks)?;
    if !is_closed(&among, marks.as_slice()) {
        return Ok(None);
    }
    Ok(Some(draft.pit))
}

/// The best pit of these blocks of a mine alone at a factor, by their places in the list: none where it isn't found.
///
/// # Errors
/// Memory was refused.
pub(crate) fn pit_among(
    alloc: Global,
    mine: &SeriesMine,
    kept: &[u32],
    factor: Factor,
    turns: u64,
) -> Result<Option<Pit>, AllocError>
    requires ascending { IsAscending kept.now }
    requires below { All (λ b. b < mine.now.predecessors.blocks) kept.now }
    requires size { length kept.now ≤ mine.now.predecessors.blocks }
    requires priced { All (λ b. b < priced_count mine.now.prices) kept.now }
    ensures { IfOk result (λ o. IfSome o
        (IsBestAmong mine.now.predecessors.pairs mine.now.prices kept.now factor)) }
{
    match mine.predecessors.as_ref() {
        HeldRef::Listed(list) => listed_pit(alloc, &mine.prices, list, kept, factor, turns),
        HeldRef::Placed(grid) => placed_pit(alloc, &mine.prices, grid, kept, factor, turns),
        // a mine has blocks
        HeldRef::Timed(_) => Ok(None),
    }
}
