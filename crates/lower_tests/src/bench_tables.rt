//! Tries the bench table of three blocks in two shells, inputs of different lengths, and sums that don't fit.

use crate::pits_and_flows::same;
use crate::prices_and_series::{listed, with_two_pits};
use bench_report::{BenchRow, ReportFault, rows, write_report};
use blocks_file::read_blocks;
use counted_devices::Counted;
use shells::Series;
use std::alloc::Global;
use std::process::Abort;

// The rows of the table, or why there are none. The blocks' tonnes are the third of their columns.
fn rows_of(
    rt: &impl Abort,
    alloc: Global,
    series: &Series,
    blocks: &[u8],
    worths: &[i128],
) -> Result<Vec<BenchRow>, ReportFault> {
    let model = read_blocks(alloc, blocks, &[0, 2])
        .ok()
        .expect(rt, "blocks");
    assert!(rt; model.columns() == 2);
    rows(alloc, &model, series, 1, worths)
}

fn text_of(rt: &impl Abort, alloc: Global, rows: &[BenchRow]) -> Vec<u8> {
    let mut out = Counted::new(Vec::new(alloc));
    write_report(alloc, rows, &mut out).expect(rt, "written");
    out.into_inner()
}

// The text of the table, or why there is none.
fn table(
    rt: &impl Abort,
    alloc: Global,
    series: &Series,
    blocks: &[u8],
    worths: &[i128],
) -> Result<Vec<u8>, ReportFault> {
    match rows_of(rt, alloc, series, blocks, worths) {
        Ok(rows) => Ok(text_of(rt, alloc, &rows)),
        Err(fault) => Err(fault),
    }
}

// Fails the test where the table has another text.
fn writes(
    rt: &impl Abort,
    alloc: Global,
    series: &Series,
    blocks: &[u8],
    worths: &[i128],
    text: &[u8],
) {
    let written = table(rt, alloc, series, blocks, worths).expect(rt, "table");
    same(rt, written.as_slice(), text);
}

#[test]
fn the_table_of_three_blocks(rt: HostRuntime) {
    let series = with_two_pits(&rt, rt.alloc(), listed(&rt, rt.alloc()));
    let blocks = b"0 0 0 0 10 4 100\n1 0 0 1 0 5 80.5\n2 1 0 1 4 1 60\n";
    let tables: [(&[i128], &[u8]); 2] = [
        (
            &[6_000_000_000, -5_000_000_000, 3_000_000_000],
            b"z,shell,blocks,tonnes,worth\n0,1000,1,100,6\n1,500,1,60,3\n1,1000,1,80.5,-5\n",
        ),
        (
            &[1_000_000_000, -5_000_000_000, 1_000_000_000],
            b"z,shell,blocks,tonnes,worth\n0,1000,1,100,1\n1,500,1,60,1\n1,1000,1,80.5,-5\n",
        ),
    ];
    for (worths, text) in tables {
        writes(&rt, rt.alloc(), &series, blocks, worths, text);
    }
}

// Fails the test where the table has another fault, or one where it is to have none.
fn faults(
    rt: &impl Abort,
    alloc: Global,
    series: &Series,
    blocks: &[u8],
    worths: &[i128],
    fault: Option<ReportFault>,
) {
    let given = table(rt, alloc, series, blocks, worths).err();
    assert_eq!(rt; given, fault);
}

// The first two blocks lie on one bench, in one shell.
#[test]
fn sums_and_lengths(rt: HostRuntime) {
    let series = with_two_pits(&rt, rt.alloc(), listed(&rt, rt.alloc()));
    let blocks = b"0 0 0 7 10 4 100\n1 1 0 7 0 5 80.5\n2 2 0 7 4 1 60\n";
    let most = i128::MAX;
    let cases: [(&[i128], Option<ReportFault>); 4] = [
        (&[most, 0, most], None),
        (&[most, most, 0], Some(ReportFault::TooLarge)),
        (&[0, 0], Some(ReportFault::WrongModel)),
        (&[0, 0, 0, 0], Some(ReportFault::WrongModel)),
    ];
    for (worths, fault) in cases {
        faults(&rt, rt.alloc(), &series, blocks, worths, fault);
    }
}
