//! Gives the table of blocks and their shells as a text where it is wanted, and else nothing.

ghost use Rattle.std.specs.Prelude.{true, IfOk, OnOk};
ghost use Rattle.shells.specs.Series.{IsSeries};
ghost use Rattle.shell_engines.specs.SeriesAnswers.{HasTableIfAsked};

use crate::series_outputs::Wanted;
use bench_report::{block_shells_text, block_ways_text};
use shells::{Factor, Series};
use std::alloc::{AllocError, Global};

// The text of the shell of each block of a series, with its way at a factor where ways are asked for.
fn table_of_blocks(
    alloc: Global,
    ways: bool,
    factor: Factor,
    series: &Series,
) -> Result<Vec<u8>, AllocError>
    ensures { IfOk result (λ text. HasTableIfAsked true ways factor series.now text.items) }
{
    if ways {
        block_ways_text(alloc, series, factor)
    } else {
        block_shells_text(alloc, series)
    }
}

/// The text of the shell of each block of a series, with its way at the factor of the report where ways are wanted;
/// nothing where the table isn't.
///
/// # Errors
/// Memory was refused.
pub fn table_if_asked(
    alloc: Global,
    wanted: Wanted,
    factor: Factor,
    series: &Series,
) -> Result<Vec<u8>, AllocError>
    ensures table { IfOk result
        (λ text. HasTableIfAsked wanted.table wanted.ways factor series.now text.items) }
    ensures series { OnOk result (IsSeries series.now) }
{
    // proof: what every series is
    let _factors = series.factors();
    if wanted.table {
        table_of_blocks(alloc, wanted.ways, factor, series)
    } else {
        Ok(Vec::new(alloc))
    }
}
