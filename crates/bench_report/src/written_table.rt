//! Gives the bench table as comma-separated values, or writes it, or says why it couldn't be written.

ghost use Rattle.std.specs.Prelude.{◌≡◌, ◌++◌, ◌+◌, ◌-◌, ◌^◌, ◌<◌, Err, IfOk, OnOk, map};
ghost use Rattle.std.specs.Io.KnownBytes.{Appends};
ghost use Rattle.csv.specs.Writing.{default_writer, row_text};
ghost use Rattle.counted_devices.specs.Device.{ReceivedPrefix};
ghost use Rattle.bench_report.specs.Written.{IsReady, written_bytes, row_line, table_text};

use crate::bench_row::BenchRow;
use crate::write_fault::ReportWriteFault;
use counted_devices::{CountedWrite, write_text};
use csv::{Writer, WriterBuilder};
use fixed_worth::{MicrosTotal, Nanos};
use std::alloc::{AllocError, Global};

// Writes a record. Over a vector nothing but refused memory makes that fail, since each record has as many fields.
pub(crate) fn put_fields(wtr: &mut Writer<Vec<u8>>, fields: &[&[u8]]) -> Result<(), AllocError>
    requires ready { IsReady wtr.old }
    ensures ready { OnOk result (IsReady wtr.new) }
    ensures text { OnOk result (written_bytes wtr.new
        ≡ written_bytes wtr.old ++ row_text default_writer (map (λ f. f.now) fields.now)) }
{
    match wtr.write_fields(fields) {
        Ok(()) => Ok(()),
        Err(_) => Err(AllocError),
    }
}

// Writes a row.
fn put_row(alloc: Global, wtr: &mut Writer<Vec<u8>>, row: &BenchRow) -> Result<(), AllocError>
    requires ready { IsReady wtr.old }
    ensures ready { OnOk result (IsReady wtr.new) }
    ensures text { OnOk result (written_bytes wtr.new ≡ written_bytes wtr.old ++ row_line row.now) }
{
    let BenchRow {
        z,
        shell,
        blocks,
        tonnes,
        worth,
    } = *row;
    let z = format!(in alloc; "{z}")?;
    let shell = format!(in alloc; "{shell}")?;
    let blocks = format!(in alloc; "{blocks}")?;
    let tonnes = format!(in alloc; "{}", MicrosTotal(tonnes))?;
    let worth = format!(in alloc; "{}", Nanos(worth))?;
    put_fields(
        wtr,
        &[
            z.as_bytes(),
            shell.as_bytes(),
            blocks.as_bytes(),
            tonnes.as_bytes(),
            worth.as_bytes(),
        ],
    )
}

/// The rows as comma-separated values: a line with the names of the columns, and a line for each row. Tonnes print with
/// at most six places, worths with at most nine.
///
/// # Errors
/// Memory was refused.
pub fn report_text(alloc: Global, rows: &[BenchRow]) -> Result<Vec<u8>, AllocError>
    ensures text { IfOk result (λ v. v.items ≡ table_text rows.now) }
{
    let mut wtr = WriterBuilder::new().from_writer(Vec::new(alloc));
    put_fields(&mut wtr, &[b"z", b"shell", b"blocks", b"tonnes", b"worth"])?;
    for row in rows {
        put_row(alloc, &mut wtr, row)?;
    }
    match wtr.into_inner() {
        Ok(text) => Ok(text),
        Err(_) => Err(AllocError),
    }
}

/// Writes the text of [`report_text`]. `out` must have counted fewer than 2^64 - 1 failures.
///
/// # Errors
/// `NoMemory` where memory is refused: the whole text is made in memory first, so nothing was written. `Device` at the
/// first write that fails: a prefix of the text was written.
pub fn write_report<W: CountedWrite>(
    alloc: Global,
    rows: &[BenchRow],
    out: &mut W,
) -> Result<(), ReportWriteFault>
    requires room { W.failed out.old < 2 ^ 64 - 1 }
    ensures written { OnOk result
        (Appends (W.contents out.old) (W.contents out.new) (table_text rows.now)) }
    ensures kept { OnOk result (W.failed out.new ≡ W.failed out.old) }
    ensures counted { result ≡ Err ReportWriteFault.Device
        → W.failed out.new ≡ W.failed out.old + 1 }
    ensures prefix { result ≡ Err ReportWriteFault.Device
        → ReceivedPrefix (W.contents out.old) (W.contents out.new) (table_text rows.now) }
    ensures untouched { result ≡ Err ReportWriteFault.NoMemory → out.new ≡ out.old }
{
    let table = report_text(alloc, rows)?;
    match write_text(out, table.as_slice()) {
        Ok(()) => Ok(()),
        Err(_) => Err(ReportWriteFault::Device),
    }
}
