//! The engine of `shells`: takes the bytes of settings, blocks and predecessors, and writes a line for the best pit
//! at each factor and, where asked for, each block's shell.

ghost use Rattle.std.specs.Prelude.{◌≡◌, ℕ, List, [], ◌+◌, MatchResult, IsErrOf};
ghost use Rattle.mine_inputs.specs.Mines.{PrecedenceBy};
ghost use Rattle.shell_engines.specs.Devices.{ForSeries, InputsCanCount, OutputsCanCount, input_failures, output_failures, NoInputFailed, NoOutputFailed, contents_in, wanted_by};
ghost use Rattle.series_pits.specs.ShellTable.{IsLineOf};
ghost use Rattle.shell_engines.specs.SeriesTexts.{IsSeriesRead};
ghost use Rattle.shell_engines.specs.Shells.{AnswersShells, ShellsFail, Shells};
ghost use Rattle.shell_engines.specs.SeriesAnswers.{IsWant, TellsWhy, IsFaultOf};

use crate::block_tables::table_if_asked;
use crate::series_inputs::{SeriesInputs, series_mine_from};
use crate::series_outputs::{Answer, SeriesOutputs, Wanted, send};
use check_engines::Verdict;
use counted_devices::{CountedRead, CountedWrite};
use engine_faults::EngineFault;
use option_words::Effort;
use pseudoflow::Progress;
use series_pits::no_series::NoSeries;
use series_pits::settled_series::settle;
use series_pits::{SeriesMine, SeriesProgress, table_of};
use shells::laws;
use solve_engines::net_answer::line_of_no;
use solve_engines::solvers::Unsolved;
use std::alloc::Global;
use std::sync::Wait;
use std::thread::Threads;
use workers::Gate;

/// Draws the shells of the mine of settings, blocks and a precedence: a line for each factor of the settings,
/// `SHELL factor blocks worth`, with what the best pit at that factor has. Where the table of blocks is asked for, it
/// is written first: a line for each block with the first factor whose best pit holds it, and where ways are wanted
/// too, with its way at the factor of the report: the settings' key `report`, or else the last of the factors.
///
/// `Done` where the lines were written: each pit was checked with a flow that proves it, and added to a series, before
/// anything was written; of two of them the one at the lower factor lies within the other. `No` where at a factor no
/// pit was proved: the line `UNSETTLED factor` where the run needs more steps than the effort has, `REFUSED TooLarge`
/// where a number of it doesn't fit; nothing is written to the table. The inputs are read in the order of their fields,
/// each to its end.
///
/// # Errors
/// In this order: `Settings` for a fault of this text or a missing key; `Blocks`; `Prices` for a negative revenue;
/// `Prec`; `Model` where at a factor an amount of the mine's net doesn't fit. `Memory`, `Thread`, `Stranger` and
/// `Device` as of `solve_engine`. At `Device` there may be a prefix of the table, or the whole table and a prefix of
/// the lines; at every other fault nothing was written.
///
/// Each device must have counted fewer than 2^64 - 1 failures, so that one more can be counted.
pub fn shells_engine<
    R: Threads + Wait + Sync,
    D: CountedRead,
    T: Gate + Progress + SeriesProgress,
    V: CountedWrite,
    W: CountedWrite,
>(
    rt: &R,
    alloc: Global,
    inputs: &mut SeriesInputs<D>,
    effort: Effort,
    gate: &T,
    outputs: &mut SeriesOutputs<V, W>,
) -> Result<Verdict, EngineFault>
    requires inputs_room { InputsCanCount inputs.old D.failed }
    requires outputs_room { OutputsCanCount outputs.old V.failed W.failed }

    // What it answers and writes, where the readers tell their bytes.
    ensures answer { ForSeries inputs.old D.remaining
        (λ s b p. Shells s b p effort (wanted_by outputs.old)
        (contents_in outputs.old.by_block V.contents) (contents_in outputs.new.by_block V.contents)
        (W.contents outputs.old.out) (W.contents outputs.new.out) result) }

    // A device is named exactly where one failed.
    ensures device { IsErrOf result EngineFault.Device
        → input_failures inputs.new D.failed + output_failures outputs.new V.failed W.failed
        ≡ input_failures inputs.old D.failed + output_failures outputs.old V.failed W.failed + 1 }
    ensures kept { ¬ IsErrOf result EngineFault.Device
        → NoInputFailed inputs.old inputs.new D.failed
        × NoOutputFailed outputs.old outputs.new V.failed W.failed }
{
    let mine = series_mine_from(rt, alloc, inputs)?;
    let wanted = outputs.wanted();
    let answer = answer_of(rt, alloc, mine, effort, gate, wanted)?;
    send(&answer, outputs)
}

// The answer for a mine that was read.
fn answer_of<R: Threads + Wait + Sync, T: Gate + Progress + SeriesProgress>(
    rt: &R,
    alloc: Global,
    mine: SeriesMine,
    effort: Effort,
    gate: &T,
    wanted: Wanted,
) -> Result<Answer, EngineFault>
    ensures answer { (s b : List ℕ) (p : PrecedenceBy)
        → IsSeriesRead s b p mine.prices mine.predecessors mine.factors.items mine.factor
        → MatchResult result
        (λ a. AnswersShells s b p effort wanted a.verdict a.table.items a.text.items)
        (λ e. ShellsFail s b p e) }
    ensures no_device { ¬ IsErrOf result EngineFault.Device }
{
    // proof: of two factors, the best pit at the lower one lies within that at the other
    laws::best_pits_at_factors_are_nested();
    let factor = mine.factor;
    let shells = match settle(rt, alloc, mine, effort, gate) {
        Ok(shells) => shells,
        Err(none) => return no_series(alloc, none),
    };
    Ok(Answer {
        verdict: Verdict::Done,
        table: table_if_asked(alloc, wanted, factor, &shells.series)?,
        text: table_of(alloc, shells.rows.as_slice())?,
    })
}

/// The answer where there is no series: `No`, with the line `UNSETTLED factor` where at a factor, in thousandths, the
/// run needs more steps, `REFUSED TooLarge` where a number of it doesn't fit; without a table.
///
/// # Errors
/// `Model`, `Memory`, `Thread` and `Stranger`, where that is the reason; `Memory` too where it is refused here.
pub fn no_series(alloc: Global, none: NoSeries) -> Result<Answer, EngineFault>
    ensures { MatchResult result
        (λ a. (a.verdict ≡ Verdict.No) × (a.table.items ≡ []) × TellsWhy none a.text.items)
        (IsFaultOf none) }
{
    match none {
        NoSeries::Unsolved(factor, why) => Ok(Answer {
            verdict: Verdict::No,
            table: Vec::new(alloc),
            text: line_at(alloc, factor, why)?,
        }),
        NoSeries::Model(_, fault) => Err(EngineFault::from(fault)),
        NoSeries::Memory => Err(EngineFault::Memory),
    }
}

// The line that says why no pit is proved at a factor.
fn line_at(alloc: Global, factor: u32, why: Unsolved) -> Result<Vec<u8>, EngineFault>
    ensures { MatchResult result (λ line. IsLineOf factor why line.items) (IsWant why) }
{
    match why {
        Unsolved::Unsettled | Unsolved::GaveUp => {
            Ok(format!(in alloc; "UNSETTLED {factor}\n")?.into_bytes())
        }
        _ => Ok(Vec::from_slice(alloc, line_of_no(why)?)?),
    }
}
