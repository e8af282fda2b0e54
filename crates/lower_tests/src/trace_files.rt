//! Tries that a run's trace is written and read back, and with what faults other texts are refused.

use counted_devices::Counted;
use machine_law::{Event, Kind};
use std::alloc::Global;
use std::process::Abort;
use std::test::Fail;
use trace_file::{MOST_EVENTS, TraceFault, read_trace, write_trace};

// A run worked out by hand over three blocks, of which block 0 and block 2 rest on block 1: a block, and the kinds of
// its next steps.
const RUN: [(&[u8], &[&[u8; 2]]); 23] = [
    (b"0", &[b"RE", b"RL", b"RC", b"RL", b"RA"]),
    (b"0", &[b"RE", b"RL", b"RC", b"RL"]),
    (b"2", &[b"RE", b"RL", b"RC", b"RL", b"RA"]),
    (b"2", &[b"RE", b"RL", b"RC", b"RL", b"GC", b"TE", b"GE"]),
    (b"1", &[b"RE", b"RC", b"RL", b"RC", b"RC", b"RL", b"RA"]),
    (
        b"1",
        &[
            b"RE", b"RC", b"RL", b"RC", b"RC", b"RL", b"TC", b"TE", b"GE",
        ],
    ),
    (b"1", &[b"RE", b"RC", b"RC", b"RC", b"RL", b"RA"]),
    (
        b"1",
        &[b"RE", b"RC", b"RC", b"RC", b"RL", b"TC", b"TE", b"GE"],
    ),
    (b"2", &[b"RE", b"RL", b"RC", b"RL", b"RA"]),
    (b"2", &[b"RE", b"RL", b"RC", b"RL", b"GC", b"TE", b"GE"]),
    (b"1", &[b"RE", b"RC", b"RC", b"RC", b"RL", b"RA"]),
    (b"0", &[b"GC"]),
    (b"0", &[b"TE", b"GE"]),
    (
        b"1",
        &[
            b"RE", b"RC", b"RC", b"RL", b"RC", b"RL", b"TC", b"TE", b"GE",
        ],
    ),
    (b"0", &[b"RE", b"RL", b"RC", b"RL", b"RA"]),
    (b"0", &[b"RE", b"RL", b"RC", b"RL", b"GC", b"TE", b"GE"]),
    (
        b"1",
        &[
            b"RE", b"RC", b"RC", b"RL", b"RC", b"RL", b"TC", b"TE", b"GE",
        ],
    ),
    (b"1", &[b"RE", b"RC", b"RC", b"RL", b"RC", b"RA"]),
    (
        b"1",
        &[b"RE", b"RC", b"RC", b"RL", b"RC", b"TC", b"TE", b"GE"],
    ),
    (b"0", &[b"RE", b"RL", b"RC", b"RL", b"RA"]),
    (b"0", &[b"RE", b"RL", b"RC", b"RL", b"TC", b"TE", b"GE"]),
    (b"2", &[b"RE", b"RL", b"RC", b"RL", b"RA"]),
    (b"2", &[b"RE", b"RL", b"RC", b"RL", b"TC", b"TE", b"GE"]),
];

// The text of the run.
fn run_text(alloc: Global) -> Result<Vec<u8>, Fail> {
    let mut text = Vec::from_slice(alloc, b"PITTRACE 1\n".as_slice())?;
    for (block, kinds) in &RUN {
        for kind in *kinds {
            text.extend_from_slice(*kind)?;
            text.push(b' ')?;
            text.extend_from_slice(block)?;
            text.push(b'\n')?;
        }
    }
    text.extend_from_slice(b"END\n")?;
    Ok(text)
}

#[test]
fn a_run_is_read_and_written(rt: HostRuntime) -> Result<(), Fail> {
    let alloc: Global = rt.alloc();
    let text = run_text(alloc)?;
    let events = read_trace(alloc, &text).ok().ok_or("read")?;
    assert_eq!(rt; events.len(), 140);
    for (step, block, kind) in [
        (1, 0, Kind::ReadExcess),
        (2, 0, Kind::ReadLabel),
        (3, 0, Kind::ReadCapacity),
        (5, 0, Kind::RaiseLabel),
        (19, 2, Kind::GiveCapacity),
        (20, 2, Kind::TakeExcess),
        (35, 1, Kind::TakeCapacity),
        (140, 2, Kind::GiveExcess),
    ] {
        assert_eq!(rt; events.get(step - 1), Some(&Event { block, kind }));
    }
    let mut out = Counted::new(Vec::new(alloc));
    assert_eq!(rt; write_trace(&events, &mut out), Ok(()));
    assert_eq!(rt; out.into_inner().as_slice(), text.as_slice());
    Ok(())
}

fn has_fault(rt: &impl Abort, alloc: Global, text: &[u8], wanted: Option<TraceFault>) {
    assert_eq!(rt; read_trace(alloc, text).err(), wanted);
}

#[test]
fn faults_are_found(rt: HostRuntime) {
    let alloc: Global = rt.alloc();
    for (text, wanted) in [
        (b"PITTRACE 1\nRE 0\nRA 4294967295\nEND\n".as_slice(), None),
        (b"PITTRACE 1\r\nRE 0\r\nEND\r\n", Some(TraceFault::Text(1))),
        (b"PITTRACE 1\nRE 0\n", Some(TraceFault::Truncated)),
        (b"PITTRACE 1\nRE 0\nEND", Some(TraceFault::Truncated)),
        (
            b"PITTRACE 1\nRE 0\nRE 4294967296\n",
            Some(TraceFault::Text(3)),
        ),
        (b"PITTRACE 1\nRE 00\nEND\n", Some(TraceFault::Text(2))),
        (b"PITTRACE 1\nRE 0 \nEND\n", Some(TraceFault::Text(2))),
        (b"PITTRACE 1\nEND\nRE 0\n", Some(TraceFault::Text(3))),
    ] {
        has_fault(&rt, alloc, text, wanted);
    }
}

#[test]
fn one_event_too_many(rt: HostRuntime) -> Result<(), Fail> {
    let alloc: Global = rt.alloc();
    let mut text = Vec::from_slice(alloc, b"PITTRACE 1\n".as_slice())?;
    for _ in 0..MOST_EVENTS {
        text.extend_from_slice(b"RE 0\n")?;
    }
    text.extend_from_slice(b"RE 0\nRE\n")?;
    has_fault(&rt, alloc, &text, Some(TraceFault::TooMany));
    Ok(())
}
