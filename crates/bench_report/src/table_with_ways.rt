//! Gives the bench table with the tonnes that go each way, as comma-separated values.

ghost use Rattle.std.specs.Prelude.{◌≡◌, ◌<◌, ◌+◌, ℤ, List, length, All, IfOk};
ghost use Rattle.std.specs.String.{string_bytes};
ghost use Rattle.bench_report.specs.declared.bench_row.BenchRow.{BenchRow};
ghost use Rattle.bench_report.specs.WayTonnes.{AreTonnesOf, row_front, tonnes_at, tonnes_fields, way_header, way_row_line, way_table_text};

use crate::bench_row::BenchRow;
use fixed_worth::{MicrosTotal, Nanos};
use std::alloc::{AllocError, Global};

// The line with the names of the columns, of which the last are tonnes by so many ways.
fn header_of(alloc: Global, ways: usize) -> Result<Vec<u8>, AllocError>
    ensures { IfOk result (λ text. text.items ≡ way_header ways) }
{
    let mut text: Vec<u8> = Vec::from_slice(alloc, b"z,shell,blocks,tonnes,worth")?;
    for i in 0..ways {
        let name = format!(in alloc; ",tonnes{}", i + 1)?;
        text.extend_from_slice(name.as_bytes())?;
    }
    text.extend_from_slice(b"\n")?;
    Ok(text)
}

// The numbers of a row, as the table without ways has them.
fn front_of(alloc: Global, row: &BenchRow) -> Result<String, AllocError>
    ensures { IfOk result (λ text. string_bytes text ≡ row_front row.now) }
{
    let BenchRow {
        z,
        shell,
        blocks,
        tonnes,
        worth,
    } = *row;
    let tonnes = MicrosTotal(tonnes);
    let worth = Nanos(worth);
    format!(in alloc; "{z},{shell},{blocks},{tonnes},{worth}")
}

// The tonnes by way of the row at a place, a comma before each.
fn fields_of(alloc: Global, by_way: &[Vec<i128>], place: usize) -> Result<Vec<u8>, AllocError>
    requires { All (λ list. place < length list.items) by_way.now }
    ensures { IfOk result (λ text. text.items ≡ tonnes_fields (tonnes_at by_way.now place)) }
{
    let mut text: Vec<u8> = Vec::new(alloc);
    for i in 0..by_way.len() {
        let list = by_way[i].as_slice();
        let tonnes = MicrosTotal(list[place]);
        let field = format!(in alloc; ",{tonnes}")?;
        text.extend_from_slice(field.as_bytes())?;
    }
    Ok(text)
}

// The line of the row at a place.
fn line_of(
    alloc: Global,
    row: &BenchRow,
    by_way: &[Vec<i128>],
    place: usize,
) -> Result<Vec<u8>, AllocError>
    requires { All (λ list. place < length list.items) by_way.now }
    ensures { IfOk result (λ line. line.items ≡ way_row_line row.now (tonnes_at by_way.now place)) }
{
    let mut line = front_of(alloc, row)?.into_bytes();
    line.extend_from_slice(&fields_of(alloc, by_way, place)?)?;
    line.extend_from_slice(b"\n")?;
    Ok(line)
}

/// The rows as comma-separated values, with the tonnes of each by way: a line with the names of the columns, and a line
/// for each row. There is a list of tonnes for each way, with a number for each row.
///
/// # Errors
/// Memory was refused.
pub fn way_table(
    alloc: Global,
    rows: &[BenchRow],
    by_way: &[Vec<i128>],
) -> Result<Vec<u8>, AllocError>
    requires { All (λ list. length list.items ≡ length rows.now) by_way.now }
    ensures { IfOk result
        (λ text. (tonnes : BenchRow → List ℤ) → AreTonnesOf rows.now by_way.now tonnes
        → text.items ≡ way_table_text (length by_way.now) tonnes rows.now) }
{
    let mut text = header_of(alloc, by_way.len())?;
    for i in 0..rows.len() {
        let line = line_of(alloc, &rows[i], by_way, i)?;
        text.extend_from_slice(&line)?;
    }
    Ok(text)
}
