//! Tries which names and values are read from `.upit` texts, with what faults other texts are refused, and how names
//! and values are written.

use counted_devices::{Counted, CountedWrite, WriteFault};
use std::alloc::Global;
use std::fmt::Debug;
use std::process::Abort;
use std::test::Fail;
use std::thread::Threads;
use upit_file::{Upit, UpitFault, declared_blocks, laws, read_upit, write_upit};

// Fails the test where they differ. A call of it costs the proof less than the assertion in its place.
fn equal<T: PartialEq + Debug + Copy>(rt: &impl Abort, got: T, wanted: T) {
    assert_eq!(rt; got, wanted);
}

const SAMPLE: &[u8] =
    b"% a comment\r\nNAME: a b\r\nTYPE:UPIT\r\nNBLOCKS:2\r\nCREATED: today\r\nOBJECTIVE_FUNCTION:\r\n1 -2.5e0\r\nEOF\r\nrubbish here and there";

// The fault of a text for three blocks, if any, which is the same where three threads read it.
fn fault(rt: &(impl Threads + Sync + Abort), alloc: Global, text: &[u8]) -> Option<UpitFault> {
    let alone = read_upit(rt, alloc, text, 3, Some(1)).err();
    equal(rt, read_upit(rt, alloc, text, 3, Some(3)).err(), alone);
    alone
}

// Each text has this fault, if any, where three blocks are asked for.
fn have_their_faults(
    rt: &(impl Threads + Sync + Abort),
    alloc: Global,
    rows: &[(&[u8], Option<UpitFault>)],
) {
    for (text, wanted) in rows {
        equal(rt, fault(rt, alloc, text), *wanted);
    }
}

fn sample(rt: &(impl Threads + Sync), alloc: Global) -> Result<Upit, Fail> {
    Ok(read_upit(rt, alloc, SAMPLE, 2, None).ok().ok_or("read")?)
}

// Whether the text of the sample tells its name and its two values.
fn tells_the_sample(upit: &Upit) -> bool {
    if upit.len() != 2 {
        return false;
    }
    upit.name() == b"a b".as_slice()
        && upit.value(0).get() == 0
        && upit.value(1).get() == -2_500_000
}

#[test]
fn a_whole_text(rt: HostRuntime) -> Result<(), Fail> {
    equal(&rt, declared_blocks(SAMPLE), Ok(2));
    let upit = sample(&rt, rt.alloc())?;
    assert!(rt; tells_the_sample(&upit));
    // whatever a text's spelling, what it says is written in one way
    let plain = b"NAME: a b\nTYPE: UPIT\nNBLOCKS: 2\nOBJECTIVE_FUNCTION:\n0 0\n1 -2.5\nEOF\n";
    writes(&rt, rt.alloc(), &upit, plain);
    Ok(())
}

#[test]
fn faults_of_texts(rt: HostRuntime) {
    let rows: [(&[u8], Option<UpitFault>); 10] = [
        (SAMPLE, Some(UpitFault::WrongBlocks(4))),
        (b"OBJECTIVE_FUNCTION", Some(UpitFault::WrongBlocks(1))),
        (b"", Some(UpitFault::NoObjective(0))),
        (b"NBLOCKS: 3\n\n% x\n", Some(UpitFault::NoObjective(3))),
        (b"NBLOCKS: 3\nEOF\n1 x\n", Some(UpitFault::NoObjective(2))),
        (b"NBLOCKS: 3\nEOF 1\nOBJECTIVE_FUNCTION", None),
        (
            b"NBLOCKS: 3\nobjective_function\n",
            Some(UpitFault::NoObjective(2)),
        ),
        (
            b"nblocks: 3\nOBJECTIVE_FUNCTION\n",
            Some(UpitFault::WrongBlocks(2)),
        ),
        (
            b"NBLOCKS 3\nOBJECTIVE_FUNCTION\nx 1",
            Some(UpitFault::Number(3)),
        ),
        (
            b"NBLOCKS 3\nOBJECTIVE_FUNCTION\n0 -1000000000000\n% x\nEOF\n0 1",
            None,
        ),
    ];
    have_their_faults(&rt, rt.alloc(), &rows);
}

// Whether a text for no blocks has this name.
fn has_name(rt: &(impl Threads + Sync), alloc: Global, text: &[u8], name: &[u8]) -> bool {
    match read_upit(rt, alloc, text, 0, None) {
        Ok(upit) => upit.name() == name,
        Err(_) => false,
    }
}

#[test]
fn names(rt: HostRuntime) {
    let rows: [(&[u8], &[u8]); 3] = [
        (
            b"NAME: a\nNBLOCKS 0\nNAME\t b : c: \r\nOBJECTIVE_FUNCTION",
            b"b : c",
        ),
        (b"NAME: a\nNBLOCKS 0\nNAME:\nOBJECTIVE_FUNCTION", b""),
        (b"NBLOCKS 0\nOBJECTIVE_FUNCTION", b""),
    ];
    for (text, name) in &rows {
        assert!(rt; has_name(&rt, rt.alloc(), text, name));
    }
}

// Whether this is a name that a text can have.
fn is_given(alloc: Global, name: &[u8]) -> Result<bool, Fail> {
    Ok(Upit::new(Vec::from_slice(alloc, name)?, Vec::new(alloc)).is_some())
}

#[test]
fn given_names(rt: HostRuntime) -> Result<(), Fail> {
    let alloc: Global = rt.alloc();
    equal(&rt, is_given(alloc, b"")?, true);
    equal(&rt, is_given(alloc, b"a : b")?, true);
    equal(&rt, is_given(alloc, b" a")?, false);
    equal(&rt, is_given(alloc, b"a:")?, false);
    equal(&rt, is_given(alloc, b"a\nb")?, false);
    Ok(())
}

#[test]
fn block_counts(rt: HostRuntime) {
    let rows: [(&[u8], Result<u32, UpitFault>); 7] = [
        (b"NBLOCKS 3\nNBLOCKS 4\n", Err(UpitFault::WrongBlocks(2))),
        (b"NBLOCKS:", Err(UpitFault::Text(1))),
        (b"NBLOCKS: -3", Err(UpitFault::Number(1))),
        (b"NBLOCKS: 18446744073709551616", Err(UpitFault::Number(1))),
        (
            b"NBLOCKS: 18446744073709551615",
            Err(UpitFault::WrongBlocks(1)),
        ),
        (b"NBLOCKS: 16777217", Err(UpitFault::WrongBlocks(1))),
        (
            b"NBLOCKS: 16777216\nOBJECTIVE_FUNCTION\n9 9 9",
            Ok(16_777_216),
        ),
    ];
    for (text, wanted) in &rows {
        equal(&rt, declared_blocks(text), *wanted);
    }
}

const WRITTEN: &[u8] =
    b"NAME: a b\nTYPE: UPIT\nNBLOCKS: 3\nOBJECTIVE_FUNCTION:\n0 0\n1 -2.5\n2 1000000000000\nEOF\n";

// What is read is written as this text.
fn writes(rt: &impl Abort, alloc: Global, upit: &Upit, text: &[u8]) {
    let mut out = Counted::new(Vec::new(alloc));
    let answer = write_upit(upit, &mut out);
    let received = out.into_inner();
    assert!(rt; answer == Ok(()) && received.as_slice() == text);
}

fn written_sample(rt: &(impl Threads + Sync), alloc: Global) -> Result<Upit, Fail> {
    Ok(read_upit(rt, alloc, WRITTEN, 3, None).ok().ok_or("read")?)
}

// The answer of a device that has room for twenty bytes, how often it failed, and whether it has a prefix.
fn into_twenty(upit: &Upit) -> (Result<(), WriteFault>, u64, bool) {
    let mut room = [0u8; 20];
    let mut out = Counted::new(room.as_mut_slice());
    let answer = write_upit(upit, &mut out);
    let failures = out.failures();
    (answer, failures, WRITTEN.starts_with(&room))
}

#[test]
fn a_text_is_written_and_a_full_device_has_a_prefix(rt: HostRuntime) -> Result<(), Fail> {
    let upit = written_sample(&rt, rt.alloc())?;
    laws::written_is_read(&upit);
    writes(&rt, rt.alloc(), &upit, WRITTEN);
    let full = (Err(WriteFault::Device), 1, true);
    equal(&rt, into_twenty(&upit), full);
    Ok(())
}

#[test]
fn an_empty_text(rt: HostRuntime) -> Result<(), Fail> {
    let alloc: Global = rt.alloc();
    let upit = Upit::new(Vec::new(alloc), Vec::new(alloc)).ok_or("name")?;
    let empty = b"NAME: \nTYPE: UPIT\nNBLOCKS: 0\nOBJECTIVE_FUNCTION:\nEOF\n";
    writes(&rt, alloc, &upit, empty);
    Ok(())
}
