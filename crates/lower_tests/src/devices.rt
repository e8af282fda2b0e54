//! Tries how failed calls of devices are counted, whole inputs are read and texts are sent, with
//! devices that fail or take few bytes at once.

// Devices of the tests' own: they claim nothing of their bytes, so what they received or gave is
// asserted as the tests run.
use counted_devices::{
    Counted, CountedRead, CountedWrite, Failing, Failure, InputFault, Page, WriteFault, read_whole,
    write_text,
};
use std::alloc::{AllocError, Global};
use std::io;
use std::io::{Error, ErrorKind, Read, Write};
use std::test::Fail;

// The count after each of four reads of two bytes, the second of which fails.
fn counts_of_reads(failure: Failure) -> [u64; 4] {
    let mut from = Counted::new(Failing::new(b"ab".as_slice(), 1, 2, failure));
    let mut counts = [9; 4];
    for count in &mut counts {
        if from.failures() < 9 {
            from.read_once(&mut [0; 4]);
        }
        *count = from.failures();
    }
    counts
}

#[test]
fn a_failed_read_counts_once(rt: HostRuntime) {
    assert!(rt; counts_of_reads(Failure::Broken) == [0, 1, 1, 1]);
    assert!(rt; counts_of_reads(Failure::Interrupted) == [0, 1, 1, 1]);
}

// The count after each of three writes of a byte, the second of which fails.
fn counts_of_writes(alloc: Global, failure: Failure) -> [u64; 3] {
    let mut out = Counted::new(Failing::new(Vec::new(alloc), 3, 2, failure));
    let mut counts = [9; 3];
    for count in &mut counts {
        if out.failures() < 9 {
            out.write_once(b"a");
        }
        *count = out.failures();
    }
    counts
}

#[test]
fn a_failed_write_counts_once(rt: HostRuntime) {
    assert!(rt; counts_of_writes(rt.alloc(), Failure::Broken) == [0, 1, 1]);
    assert!(rt; counts_of_writes(rt.alloc(), Failure::Interrupted) == [0, 1, 1]);
    assert!(rt; counts_of_writes(rt.alloc(), Failure::TakesNothing) == [0, 1, 1]);
}

// The count after a read that fails and one at the end of the input.
fn counts_of_plain_reads() -> (u64, u64) {
    let mut from = Counted::new(Failing::new(b"".as_slice(), 1, 1, Failure::Interrupted));
    let _ = from.read(&mut [0; 4]);
    let first = from.failures();
    let _ = from.read(&mut [0; 4]);
    (first, from.failures())
}

// The count after a write of a byte, one of nothing, and a flush.
fn counts_of_plain_writes(alloc: Global, fails_at: u64, failure: Failure) -> (u64, u64, u64) {
    let mut out = Counted::new(Failing::new(Vec::new(alloc), 3, fails_at, failure));
    let _ = out.write(b"a");
    let first = out.failures();
    let _ = out.write(b"");
    let second = out.failures();
    let _ = out.flush();
    (first, second, out.failures())
}

#[test]
fn calls_by_the_traits_of_std_count_too(rt: HostRuntime) {
    assert!(rt; counts_of_plain_reads() == (1, 1));
    assert!(rt; counts_of_plain_writes(rt.alloc(), 1, Failure::TakesNothing) == (1, 1, 1));
    assert!(rt; counts_of_plain_writes(rt.alloc(), 1, Failure::Broken) == (1, 1, 1));
    assert!(rt; counts_of_plain_writes(rt.alloc(), 2, Failure::TakesNothing) == (0, 0, 0));
    assert!(rt; counts_of_plain_writes(rt.alloc(), 3, Failure::Broken) == (0, 0, 1));
}

// How long the text is that was read, and how many calls it took.
fn read_by_bytes(
    alloc: Global,
    bytes: &[u8],
    limit: u8,
    fails_at: u64,
    failure: Failure,
) -> (Result<usize, InputFault>, u64) {
    let mut from = Counted::new(Failing::new(bytes, 1, fails_at, failure));
    let answer = match read_whole(alloc, &mut from, u64::from(limit)) {
        Ok(text) => Ok(text.len()),
        Err(fault) => Err(fault),
    };
    (answer, from.into_inner().calls())
}

#[test]
fn an_input_of_the_limit_is_read_and_a_longer_one_refused(rt: HostRuntime) {
    let (exact, calls) = read_by_bytes(rt.alloc(), b"01234", 5, 0, Failure::Broken);
    assert!(rt; exact == Ok(5) && calls <= 7);
    let (longer, calls) = read_by_bytes(rt.alloc(), b"0123456789", 5, 0, Failure::Broken);
    assert!(rt; longer == Err(InputFault::InputTooLong) && calls <= 7);
    let (empty, calls) = read_by_bytes(rt.alloc(), b"", 0, 0, Failure::Broken);
    assert!(rt; empty == Ok(0) && calls <= 2);
}

#[test]
fn a_failing_input_is_a_device_fault(rt: HostRuntime) {
    for fails_at in 1..5 {
        let (broken, _) = read_by_bytes(rt.alloc(), b"012", 5, fails_at, Failure::Broken);
        assert!(rt; broken == Err(InputFault::Device));
        let (stopped, _) = read_by_bytes(rt.alloc(), b"012", 5, fails_at, Failure::Interrupted);
        assert!(rt; stopped == Err(InputFault::Device));
    }
}

// What a writer received of ten bytes, and whether all were sent.
fn sent(alloc: Global, fails_at: u64, failure: Failure) -> (Result<(), WriteFault>, Vec<u8>) {
    let mut out = Counted::new(Failing::new(Vec::new(alloc), 3, fails_at, failure));
    let answer = write_text(&mut out, b"0123456789");
    (answer, out.into_inner().into_inner())
}

#[test]
fn a_short_writer_has_the_text_and_a_failing_one_a_prefix(rt: HostRuntime) {
    let (answer, received) = sent(rt.alloc(), 0, Failure::Broken);
    assert!(rt; answer == Ok(()) && received.as_slice() == b"0123456789".as_slice());
    for failure in [Failure::Broken, Failure::Interrupted, Failure::TakesNothing] {
        for (fails_at, want) in [(1, "".as_bytes()), (2, b"012"), (4, b"012345678")] {
            let (answer, received) = sent(rt.alloc(), fails_at, failure);
            assert!(rt; answer == Err(WriteFault::Device) && received.as_slice() == want);
        }
    }
}

/// A writer that takes all it is given, and counts its calls.
#[derive(Drop)]
struct Whole {
    received: Vec<u8>,
    calls: u64,
}

impl Write for Whole {
    fn write(&mut self, buf: &[u8]) -> io::Result<usize> {
        self.calls = self.calls.saturating_add(1);
        match self.received.extend_from_slice(buf) {
            Ok(()) => Ok(buf.len()),
            Err(_) => Err(Error::from(ErrorKind::OutOfMemory)),
        }
    }

    fn flush(&mut self) -> io::Result<()> {
        Ok(())
    }
}

// A thousand lines, a piece longer than a page, and a last line.
fn put_many<W: CountedWrite>(page: &mut Page, out: &mut W, long: &[u8]) -> Result<(), WriteFault> {
    for _ in 0..1000 {
        put(page, out, b"0 1 2 3 4\n")?;
    }
    put(page, out, long)?;
    put(page, out, b"end\n")
}

fn put<W: CountedWrite>(page: &mut Page, out: &mut W, piece: &[u8]) -> Result<(), WriteFault> {
    if out.failures() > 0 {
        return Err(WriteFault::Device);
    }
    page.put(out, piece)
}

fn gathered(alloc: Global) -> Result<Option<Whole>, AllocError> {
    let mut out = Counted::new(Whole {
        received: Vec::new(alloc),
        calls: 0,
    });
    let mut page = Page::new();
    let long = vec![in alloc; b'5'; 20_000]?;
    if put_many(&mut page, &mut out, &long).is_err() || out.failures() > 0 {
        return Ok(None);
    }
    match page.finish(&mut out) {
        Ok(()) => Ok(Some(out.into_inner())),
        Err(_) => Ok(None),
    }
}

#[test]
fn a_page_gathers_short_pieces(rt: HostRuntime) -> Result<(), Fail> {
    let Some(device) = gathered(rt.alloc())? else {
        panic!(rt; "a write failed");
    };
    assert!(rt; device.calls == 4 && device.received.len() == 30_004);
    assert!(rt; device.received.starts_with(b"0 1 2 3 4\n0 1 2 3 4\n"));
    assert!(rt; device.received.ends_with(b"55end\n"));
    Ok(())
}
