//! Tries which places and columns are read from texts of blocks, and with what faults other texts are
//! refused.

use blocks_file::{BlockModel, BlocksFault, Place, read_blocks};
use std::alloc::Global;
use std::fmt::Debug;
use std::process::Abort;
use std::test::Fail;

// Fails the test where they differ. A call of it costs the proof less than the assertion in its place.
fn equal<T: PartialEq + Debug + Copy>(rt: &impl Abort, got: T, wanted: T) {
    assert_eq!(rt; got, wanted);
}

const THREE: &[u8] =
    b"% block x y z tonnage rock grade\n0 0 0 0 10 4 100\n1 0 0 1 0 5 80.5\n2 1 0 1 4 1 60\n";

// The fault of a text with these columns, if any.
fn fault(alloc: Global, text: &[u8], columns: &[u32]) -> Option<BlocksFault> {
    if columns.len() > 8 {
        return None;
    }
    read_blocks(alloc, text, columns).err()
}

fn place(blocks: &BlockModel, block: u32) -> Option<Place> {
    if block < blocks.len() {
        Some(blocks.place(block))
    } else {
        None
    }
}

fn value(blocks: &BlockModel, i: u32, block: u32) -> Option<i64> {
    if i >= blocks.columns() || block >= blocks.len() {
        return None;
    }
    Some(blocks.column(i, block).get())
}

// What the first three columns say of a block.
fn values(blocks: &BlockModel, block: u32) -> [Option<i64>; 3] {
    [
        value(blocks, 0, block),
        value(blocks, 1, block),
        value(blocks, 2, block),
    ]
}

#[test]
fn places_of_three_blocks(rt: HostRuntime) -> Result<(), Fail> {
    let blocks = read_blocks(rt.alloc(), THREE, &[0, 1, 2])?;
    equal(&rt, (blocks.len(), blocks.columns()), (3, 3));
    for (block, x, y, z) in &[(0, 0, 0, 0), (1, 0, 0, 1), (2, 1, 0, 1)] {
        let (x, y, z) = (*x, *y, *z);
        equal(&rt, place(&blocks, *block), Some(Place { x, y, z }));
    }
    Ok(())
}

#[test]
fn no_columns(rt: HostRuntime) -> Result<(), Fail> {
    let none = read_blocks(rt.alloc(), THREE, &[])?;
    equal(&rt, (none.len(), none.columns()), (3, 0));
    let last = Place { x: 1, y: 0, z: 1 };
    equal(&rt, place(&none, 2), Some(last));
    Ok(())
}

#[test]
fn a_column_chosen_twice(rt: HostRuntime) -> Result<(), Fail> {
    let twice = read_blocks(rt.alloc(), THREE, &[2, 0, 2])?;
    let wanted = [Some(80_500_000), Some(0), Some(80_500_000)];
    equal(&rt, values(&twice, 1), wanted);
    Ok(())
}

#[test]
fn eight_columns(rt: HostRuntime) -> Result<(), Fail> {
    let text = b"1 0 0 1 1 2 3 4 5 6 7 8\n0 0 0 0 9 10 11 12 13 14 15 16";
    let eight = read_blocks(rt.alloc(), text.as_slice(), &[7, 6, 5, 4, 3, 2, 1, 0])?;
    equal(&rt, (eight.len(), eight.columns()), (2, 8));
    for (i, block, wanted) in &[
        (0, 0, 16_000_000),
        (7, 0, 9_000_000),
        (0, 1, 8_000_000),
        (6, 1, 2_000_000),
    ] {
        equal(&rt, value(&eight, *i, *block), Some(*wanted));
    }
    Ok(())
}

// Each text has this fault, if any, where these columns are asked for.
fn have_their_faults(
    rt: &impl Abort,
    alloc: Global,
    rows: &[(&[u8], &[u32], Option<BlocksFault>)],
) {
    for (text, columns, wanted) in rows {
        equal(rt, fault(alloc, text, columns), *wanted);
    }
}

#[test]
fn faults_of_records(rt: HostRuntime) {
    let rows: [(&[u8], &[u32], Option<BlocksFault>); 10] = [
        (
            b"0 0 0 0 7\n2 0 0 1 7",
            &[0],
            Some(BlocksFault::UnknownBlock(2)),
        ),
        (b"0 0 0 0 7\n1 0 0 1", &[0], Some(BlocksFault::NoColumn(2))),
        (b"0 0 0", &[], Some(BlocksFault::Text(1))),
        (b"0 0 0 0\n0 0 0 1", &[], Some(BlocksFault::Repeated(2))),
        (b"0 0 0 0 x\n", &[0], Some(BlocksFault::Number(1))),
        (b"\n% x\n0 0 0 0 7 x", &[0], None),
        (b"", &[0], None),
        // in the order of a line's fields, and of lines
        (b"5 0 0 0 x", &[0, 1], Some(BlocksFault::Number(1))),
        (b"5 0 0 0 7", &[0, 1], Some(BlocksFault::NoColumn(1))),
        (
            b"5 0 0 0 7\n0 0 0",
            &[0],
            Some(BlocksFault::UnknownBlock(1)),
        ),
    ];
    have_their_faults(&rt, rt.alloc(), &rows);
}
