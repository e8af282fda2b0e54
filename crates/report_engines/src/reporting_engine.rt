//! The engine of `report`: takes the bytes of settings, blocks and predecessors, and writes the blocks, tonnes and
//! worth of each shell on each bench.

ghost use Rattle.std.specs.Prelude.{ℕ, List, ◌+◌, ◌≡◌, MatchResult, IsErrOf};
ghost use Rattle.mine_inputs.specs.Mines.{PrecedenceBy};
ghost use Rattle.shell_engines.specs.Devices.{ForSeries, InputsCanCount, OutputsCanCount, input_failures, output_failures, NoInputFailed, NoOutputFailed, contents_in, wanted_by};
ghost use Rattle.report_engines.specs.Reports.{AnswersReport, ReportFails, Reports};
ghost use Rattle.report_engines.specs.ReportParts.{IsReportRead};

use crate::bench_rows::{ShellBlocks, rows_at};
use crate::report_inputs::{ReportMine, report_mine_from};
use crate::way_rows::text_of;
use check_engines::Verdict;
use counted_devices::{CountedRead, CountedWrite};
use engine_faults::EngineFault;
use option_words::Effort;
use pseudoflow::Progress;
use series_pits::SeriesProgress;
use series_pits::settled_series::settle;
use shell_engines::block_tables::table_if_asked;
use shell_engines::series_engine::no_series;
use shell_engines::series_outputs::{Answer, Wanted, send};
use shell_engines::{SeriesInputs, SeriesOutputs};
use shells::laws;
use std::alloc::Global;
use std::sync::Wait;
use std::thread::Threads;
use workers::Gate;

/// Reports the shells of the mine of settings, blocks and a precedence: the bench table, as comma-separated values with
/// the line `z,shell,blocks,tonnes,worth` first. A block's shell is the lowest factor of the settings whose best pit
/// holds it, its tonnes are those of its record, and its worth is that at the factor of the report: the settings' key
/// `report`, or else the last of the factors. Where ways are wanted, the tonnes that go each way at that factor stand
/// after these numbers, `tonnes1`, `tonnes2` and so on. Where the table of blocks is asked for, it is written first: a
/// line for each block with its shell, and with its way where ways are wanted.
///
/// `Done` where the table was written: each pit was checked with a flow that proves it, and added to a series, before
/// anything was written. `No` where at a factor no pit was proved: the line `UNSETTLED factor` where the run needs more
/// steps than the effort has, `REFUSED TooLarge` where a number of it doesn't fit; nothing is written to the table of
/// blocks. The inputs are read in the order of their fields, each to its end.
///
/// # Errors
/// In this order:
///
/// - `Settings` for a fault of this text, or for the first missing key of `revenue`, `cost`, `tonnes`, `factors`, or
///   with a mill of `revenue`, `tonnes`, `factors`, `processing`, `mining`, or with ways of `tonnes`, `factors`,
///   `mining`; of `slopes` too where no precedence is read;
/// - `Blocks`; `Prices` for a negative revenue; `Prec`;
/// - `Model` where an amount of the mine's net doesn't fit at one of the factors.
///
/// `Memory`, `Thread`, `Stranger` and `Device` as for `solve_engine`; at `Device` as `shells_engine` says.
///
/// Each device must have counted fewer than 2^64 - 1 failures, so that one more can be counted.
pub fn report_engine<
    R: Threads + Wait + Sync,
    D: CountedRead,
    T: Gate + Progress + SeriesProgress,
    V: CountedWrite,
    W: CountedWrite,
>(
    rt: &R,
    alloc: Global,
    inputs: &mut SeriesInputs<D>,
    effort: Effort,
    gate: &T,
    outputs: &mut SeriesOutputs<V, W>,
) -> Result<Verdict, EngineFault>
    requires inputs_room { InputsCanCount inputs.old D.failed }
    requires outputs_room { OutputsCanCount outputs.old V.failed W.failed }

    // What it answers and writes, where the readers tell their bytes.
    ensures answer { ForSeries inputs.old D.remaining
        (λ s b p. Reports s b p effort (wanted_by outputs.old)
        (contents_in outputs.old.by_block V.contents) (contents_in outputs.new.by_block V.contents)
        (W.contents outputs.old.out) (W.contents outputs.new.out) result) }

    // A device is named exactly where one failed.
    ensures device { IsErrOf result EngineFault.Device
        → input_failures inputs.new D.failed + output_failures outputs.new V.failed W.failed
        ≡ input_failures inputs.old D.failed + output_failures outputs.old V.failed W.failed + 1 }
    ensures kept { ¬ IsErrOf result EngineFault.Device
        → NoInputFailed inputs.old inputs.new D.failed
        × NoOutputFailed outputs.old outputs.new V.failed W.failed }
{
    let mine = report_mine_from(rt, alloc, inputs)?;
    let wanted = outputs.wanted();
    let answer = answer_of(rt, alloc, mine, effort, gate, wanted)?;
    send(&answer, outputs)
}

// The answer for a mine that was read.
fn answer_of<R: Threads + Wait + Sync, T: Gate + Progress + SeriesProgress>(
    rt: &R,
    alloc: Global,
    mine: ReportMine,
    effort: Effort,
    gate: &T,
    wanted: Wanted,
) -> Result<Answer, EngineFault>
    ensures answer { (s b : List ℕ) (p : PrecedenceBy)
        → IsReportRead s b p mine.series.prices mine.series.predecessors
        mine.series.factors.items mine.model mine.priced_by mine.series.factor
        → MatchResult result
        (λ a. AnswersReport s b p effort wanted a.verdict a.table.items a.text.items)
        (λ e. ReportFails s b p e) }
    ensures no_device { ¬ IsErrOf result EngineFault.Device }
{
    // proof: of two factors, the best pit at the lower one lies within that at the other
    laws::best_pits_at_factors_are_nested();
    let ReportMine {
        series,
        model,
        priced_by,
    } = mine;
    let factor = series.factor;
    let shells = match settle(rt, alloc, series, effort, gate) {
        Ok(shells) => shells,
        Err(none) => return no_series(alloc, none),
    };
    let blocks = ShellBlocks {
        model: &model,
        priced_by: &priced_by,
        series: &shells.series,
    };
    let rows = rows_at(rt, alloc, &blocks, factor)?;
    let text = text_of(alloc, &blocks, factor, rows.as_slice(), wanted.ways)?;
    Ok(Answer {
        verdict: Verdict::Done,
        table: table_if_asked(alloc, wanted, factor, &shells.series)?,
        text,
    })
}
