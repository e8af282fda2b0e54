//! Makes the net of a mine at a factor, and gives the best pit that its solution proves, with its count and worth.

ghost use Rattle.std.specs.Prelude.{◌≡◌, Contains, IfSome, MatchResult};
ghost use Rattle.ordered_group.specs.Block.{scaled_block};
ghost use Rattle.closure_net.specs.Network.{NetView};
ghost use Rattle.solve_engines.specs.Certification.{IsSolution};
ghost use Rattle.series_pits.specs.SettledSeries.{IsNetAt};
ghost use Rattle.series_pits.specs.PitsAtFactors.{NoNetStands, IsBestOf};

use crate::no_series::NoSeries;
use crate::shell_rows::ShellRow;
use closure_net::{Net, Pit, laws};
use ordered_group::{Scaled, SizeGroup};
use prec_file::Rests;
use shells::{Factor, Prices};
use solve_engines::certification::Solution;
use std::alloc::Global;
use std::thread::Threads;

/// The best pit of a mine at a factor.
#[derive(Drop)]
pub struct BestPit {
    /// The factor, and what the pit has.
    pub row: ShellRow,
    /// The blocks.
    pub pit: Pit,
}

/// The net of the pairs, and of the worths by the prices at a factor.
///
/// # Errors
/// `Model` where an amount of the net doesn't fit. `Memory` where memory is refused.
pub fn net_at<R: Threads + Sync>(
    rt: &R,
    alloc: Global,
    prices: &Prices,
    rests: Rests,
    factor: Factor,
) -> Result<Net<Scaled>, NoSeries>
    ensures { MatchResult result
        (IsNetAt scaled_block rests.pairs prices.now factor)
        (NoNetStands scaled_block rests prices.now factor) }
{
    let nanos = prices.worths_at(rt, alloc, factor)?;
    match Net::<Scaled>::of_worths(alloc, rests, nanos.as_slice()) {
        Ok(net) => {
            // proof: what is known of every net, that its pairs are of its blocks and in order
            let _worths = net.worths();
            Ok(net)
        }
        Err(fault) => Err(NoSeries::Model(factor.get(), fault)),
    }
}

/// The best pit at a factor, of a solution of the net at it.
pub fn best_of<G: SizeGroup>(factor: Factor, solution: Solution<G>) -> BestPit
    ensures { (net : NetView)
        → IsSolution G.set_worth net solution.flow solution.pit solution.count solution.worth
        → IsBestOf G.block_parts net factor result }
{
    // proof: a greatest closed set is the best pit, and its amounts tell its worth
    laws::greatest_set_is_best_pit::<G>();
    let row = ShellRow {
        factor: factor.get(),
        blocks: solution.count,
        worth: solution.worth,
    };
    BestPit {
        row,
        pit: solution.pit,
    }
}

/// The best pit at a factor, if it is in the list.
pub fn best_in(list: &[BestPit], factor: Factor) -> Option<&BestPit>
    ensures { IfSome result (λ best. (best.now.row.factor ≡ factor) × Contains list.now best.now) }
{
    for i in 0..list.len() {
        if list[i].row.factor == factor.get() {
            return Some(&list[i]);
        }
    }
    None
}
