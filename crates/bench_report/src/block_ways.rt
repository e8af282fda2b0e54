//! Gives the shell of each block of a series, and which way it goes at a factor, as comma-separated values.

ghost use Rattle.std.specs.Prelude.{◌≡◌, ◌<◌, IfOk, OnOk};
ghost use Rattle.std.specs.String.{string_bytes};
ghost use Rattle.shells.specs.Prices.{priced_count, way_at};
ghost use Rattle.shells.specs.Series.{shell_at, IsSeries};
ghost use Rattle.bench_report.specs.BlockShells.{shell_field, way_field, way_if_held, block_way_line, block_way_table_text};

use shells::{Factor, Series};
use std::alloc::{AllocError, Global};

// A shell as it is written: nothing where there is none.
fn shell_text(alloc: Global, shell: Option<u32>) -> Result<String, AllocError>
    ensures { IfOk result (λ text. string_bytes text ≡ shell_field shell) }
{
    match shell {
        Some(factor) => format!(in alloc; "{factor}"),
        None => Ok(String::new(alloc)),
    }
}

// A way as it is written, the first as 1: nothing where there is none.
fn way_text(alloc: Global, way: Option<u32>) -> Result<String, AllocError>
    ensures { IfOk result (λ text. string_bytes text ≡ way_field way) }
{
    match way {
        Some(place) => {
            let number = u64::from(place) + 1;
            format!(in alloc; "{number}")
        }
        None => Ok(String::new(alloc)),
    }
}

// Which way a block goes at a factor: a block that no shell holds goes none.
fn way_of(series: &Series, b: u32, factor: Factor) -> Option<u32>
    requires { b < priced_count series.now.prices }
    ensures { result ≡ way_if_held
        (shell_at series.now.shells b) (way_at series.now.prices factor b) }
{
    match series.shell_of(b) {
        Some(_) => series.prices().way_of(b, factor),
        None => None,
    }
}

// The line of a block.
fn line_of(alloc: Global, series: &Series, b: u32, factor: Factor) -> Result<String, AllocError>
    requires { b < priced_count series.now.prices }
    ensures { IfOk result (λ line. string_bytes line ≡ block_way_line b
        (shell_at series.now.shells b) (way_at series.now.prices factor b)) }
{
    let shell = shell_text(alloc, series.shell_of(b))?;
    let way = way_text(alloc, way_of(series, b, factor))?;
    format!(in alloc; "{b},{shell},{way}\n")
}

/// The shell of each block of a series, and which way it goes at a factor, as comma-separated values: a line with the
/// names of the columns, and a line for each block, ascending. The shell is in thousandths, and empty where the block
/// has none. The way is 1 for the first of the prices, and empty where the block goes to waste or has no shell.
///
/// # Errors
/// Memory was refused.
pub fn block_ways_text(
    alloc: Global,
    series: &Series,
    factor: Factor,
) -> Result<Vec<u8>, AllocError>
    ensures text { IfOk result (λ v. v.items ≡ block_way_table_text (shell_at series.now.shells)
        (way_at series.now.prices factor) (priced_count series.now.prices)) }
    ensures series { OnOk result (IsSeries series.now) }
{
    // proof: what every series is
    let _factors = series.factors();
    let mut text: Vec<u8> = Vec::from_slice(alloc, b"block,shell,way\n")?;
    for b in 0..series.prices().len() {
        let line = line_of(alloc, series, b, factor)?;
        text.extend_from_slice(line.as_bytes())?;
    }
    Ok(text)
}
