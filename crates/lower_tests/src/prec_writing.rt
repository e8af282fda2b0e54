//! Tries how predecessors are written as precedence texts, up to the widest line, and what a failing writer
//! has received.

// Devices of the tests' own claim nothing of their bytes, so what they received is asserted as the tests run.
ghost use Rattle.std.specs.Prelude.{◌≤◌};

use counted_devices::{Counted, CountedWrite};
use prec_file::{PrecWriteFault, Rests, read_listed, read_prec, write_prec, write_predecessors};
use std::alloc::Global;
use std::io;
use std::io::{Error, ErrorKind, Write};
use std::process::Abort;
use std::test::Fail;

/// A writer that takes at most three bytes a call, and fails at one of its calls, the first being 1.
#[derive(Drop)]
struct Short {
    received: Vec<u8>,
    calls: u64,
    fails_at: u64,
}

impl Write for Short {
    fn write(&mut self, buf: &[u8]) -> io::Result<usize> {
        self.calls = self.calls.saturating_add(1);
        if self.calls == self.fails_at {
            return Err(Error::from(ErrorKind::BrokenPipe));
        }
        let taken = buf.len().min(3);
        match self.received.extend_from_slice(&buf[..taken]) {
            Ok(()) => Ok(taken),
            Err(_) => Err(Error::from(ErrorKind::OutOfMemory)),
        }
    }

    fn flush(&mut self) -> io::Result<()> {
        Ok(())
    }
}

// Pairs are written with this answer, without a failure, and as this text.
fn writes(
    rt: &impl Abort,
    alloc: Global,
    rests: &Rests,
    wanted: Result<(), PrecWriteFault>,
    text: &[u8],
) {
    let mut out = Counted::new(Vec::new(alloc));
    let answer = write_prec(rests, &mut out);
    let failures = out.failures();
    let received = out.into_inner();
    assert!(rt; answer == wanted && failures == 0 && received.as_slice() == text);
}

#[test]
fn predecessors_alone_are_written(rt: HostRuntime) -> Result<(), Fail> {
    let alloc: Global = rt.alloc();
    let predecessors = read_listed(alloc, b"2 1 0\n1 1 2\n", 3)?.into_predecessors(alloc)?;
    let mut out = Counted::new(Vec::new(alloc));
    write_predecessors(&predecessors, &mut out)
        .ok()
        .ok_or("written")?;
    let received = out.into_inner();
    assert!(rt; received.as_slice() == b"0 0\n1 1 2\n2 1 0\n".as_slice());
    Ok(())
}

#[test]
fn each_block_has_its_line(rt: HostRuntime) -> Result<(), Fail> {
    let rests = Rests::from_pairs(rt.alloc(), 3, &[(1, 2), (2, 0)])?;
    writes(&rt, rt.alloc(), &rests, Ok(()), b"0 0\n1 1 2\n2 1 0\n");
    Ok(())
}

// Block 1 of n blocks rests on all others.
fn on_all_others(alloc: Global, n: u32) -> Result<Rests, Fail>
    requires { n ≤ 10000 }
{
    let mut pairs = Vec::new(alloc);
    for p in 0..n {
        pairs.push((1, p))?;
    }
    Ok(Rests::from_pairs(alloc, n, &pairs)?)
}

#[test]
fn a_block_with_7001_predecessors_is_too_wide(rt: HostRuntime) -> Result<(), Fail> {
    let rests = on_all_others(rt.alloc(), 7002)?;
    let wanted = Err(PrecWriteFault::TooWide(1));
    writes(&rt, rt.alloc(), &rests, wanted, b"");
    Ok(())
}

// The text of these pairs.
fn written(alloc: Global, rests: &Rests) -> Result<Vec<u8>, Fail> {
    let mut out = Counted::new(Vec::new(alloc));
    write_prec(rests, &mut out).ok().ok_or("written")?;
    Ok(out.into_inner())
}

fn written_on_all_others(alloc: Global) -> Result<Vec<u8>, Fail> {
    let rests = on_all_others(alloc, 7001)?;
    written(alloc, &rests)
}

// Whether a text of 7001 blocks has 7000 pairs, from block 1 to block 0 and to block 7000 at the ends.
fn is_of_all_others(alloc: Global, text: &[u8]) -> Result<bool, Fail> {
    let again = read_prec(alloc, text, 7001)?;
    if again.pairs() != 7000 {
        return Ok(false);
    }
    Ok(again.pair(0) == (1, 0) && again.pair(6999) == (1, 7000))
}

#[test]
fn a_block_with_7000_predecessors_is_written(rt: HostRuntime) -> Result<(), Fail> {
    let text = written_on_all_others(rt.alloc())?;
    let begins = text.starts_with(b"0 0\n1 7000 0 2 3 4");
    assert!(rt; begins && text.ends_with(b"\n6999 0\n7000 0\n"));
    assert!(rt; is_of_all_others(rt.alloc(), &text)?);
    Ok(())
}

// A writer that fails at one of its calls has a prefix of the text, and its failure counts once.
fn leaves_a_prefix(rt: &impl Abort, alloc: Global, rests: &Rests, fails_at: u32) {
    let mut out = Counted::new(Short {
        received: Vec::new(alloc),
        calls: 0,
        fails_at: u64::from(fails_at),
    });
    let answer = write_prec(rests, &mut out);
    let failures = out.failures();
    let received = out.into_inner().received;
    assert!(rt; answer == Err(PrecWriteFault::Device) && failures == 1);
    assert!(rt; received.len() as u64 + 3 == 3 * u64::from(fails_at));
    assert!(rt; b"0 0\n1 1 2\n2 1 0\n".starts_with(received.as_slice()));
}

#[test]
fn a_failing_writer_has_a_prefix(rt: HostRuntime) -> Result<(), Fail> {
    let rests = Rests::from_pairs(rt.alloc(), 3, &[(1, 2), (2, 0)])?;
    for fails_at in 1..7 {
        leaves_a_prefix(&rt, rt.alloc(), &rests, fails_at);
    }
    Ok(())
}
