//! Tries which texts are read as certificates, with what faults others are refused, and that a certificate is written
//! as it was read, also where its amounts hold worth and size in one number.

ghost use Rattle.std.specs.Prelude.{◌≤◌, length, IfOk};
ghost use Rattle.certificate_file.specs.Certificate.{Covers};

use crate::pits_and_flows::{rests_of, same};
use check_pit::reading::header;
use check_pit::{
    CertFault, Certificate, Header, Price, check, read_certificate, write_certificate,
};
use closure_net::Net;
use counted_devices::Counted;
use fixed_worth::MOST_BLOCKS;
use ordered_group::{Group, OrderedGroup, Scaled, Worth, WorthSize};
use prec_file::Rests;
use std::alloc::Global;
use std::process::Abort;
use std::test::Fail;

const WORTH: &[u8] =
    b"PITCERT 1\nBLOCKS 3\nPRICE OBJECTIVE\nGROUP WORTH\nPIT 0\nPIT 1\nPIT 2\nSOURCE 0 6000000000 0\nSOURCE 1 4000000000 0\nREST 0 2 6000000000 0\nREST 1 2 4000000000 0\nSINK 2 10000000000 0\nEND\n";

const PAIR: &[u8] =
    b"PITCERT 1\nBLOCKS 3\nPRICE OBJECTIVE\nGROUP PAIR\nPIT 0\nPIT 1\nPIT 2\nSOURCE 0 6000000000 -1\nSOURCE 1 4000000000 2\nREST 0 2 6000000000 -1\nREST 1 2 4000000000 2\nSINK 2 10000000000 1\nEND\n";

// Blocks worth 6 and 5 that rest on one worth -10.
const UNITS: &[u8] =
    b"PITCERT 1\nBLOCKS 3\nPRICE OBJECTIVE\nGROUP SCALED\nPIT 0\nPIT 1\nPIT 2\nSOURCE 0 23999999999 0\nSOURCE 1 16000000002 0\nREST 0 2 23999999999 0\nREST 1 2 16000000002 0\nSINK 2 40000000001 0\nEND\n";

const HEADER: &[u8] = b"PITCERT 1\nBLOCKS 3\nPRICE OBJECTIVE\nGROUP WORTH\n";

// Three blocks, of which the first two rest on the last.
fn rests(alloc: Global) -> Result<Rests, Fail> {
    rests_of(alloc, 3, &[(0, 2), (1, 2)])
}

fn read_over<G: OrderedGroup>(
    alloc: Global,
    text: &[u8],
    rests: &Rests,
) -> Result<Certificate<G>, Fail>
    ensures { IfOk result (λ c. Covers rests.now.blocks (length rests.now.pairs) c.flow) }
{
    let Ok(read) = read_certificate(alloc, text, rests) else {
        return Err(Fail::from("read"));
    };
    Ok(read)
}

// The fault of a text as a certificate of the three blocks.
fn fault<G: OrderedGroup>(alloc: Global, text: &[u8]) -> Result<Option<CertFault>, Fail> {
    let rests = rests(alloc)?;
    let read: Result<Certificate<G>, CertFault> = read_certificate(alloc, text, &rests);
    Ok(read.err())
}

// The fault of a text with more after it.
fn fault_with(alloc: Global, text: &[u8], more: &[u8]) -> Result<Option<CertFault>, Fail> {
    let mut whole = Vec::from_slice(alloc, text)?;
    whole.extend_from_slice(more)?;
    fault::<Worth>(alloc, &whole)
}

// Lines after the header, and the fault that they are.
type Row = (&'static [u8], Option<CertFault>);

fn have_their_faults(rt: &impl Abort, alloc: Global, rows: &[Row]) -> Result<(), Fail> {
    for (body, wanted) in rows {
        same(rt, fault_with(alloc, HEADER, body)?, *wanted);
    }
    Ok(())
}

#[test]
fn faults_of_lines(rt: HostRuntime) -> Result<(), Fail> {
    let order = Some(CertFault::OutOfOrder(6));
    let rows: [Row; 7] = [
        (b"PIT 2\nPIT 0\nPIT 1\nEND\n", order),
        (b"SOURCE 0 1 0\nSOURCE 0 1 0\nEND\n", order),
        (b"REST 1 2 1 0\nREST 0 1 1 0\nEND\n", order),
        (b"REST 0 1 1 0\nEND\n", Some(CertFault::UnknownPair(5))),
        (b"PIT 3\nEND\n", Some(CertFault::Number(5))),
        (b"END\nEND\n", Some(CertFault::Text(6))),
        (b"END\n", None),
    ];
    have_their_faults(&rt, rt.alloc(), &rows)
}

// The fault of so many bytes without an end of a line after the header.
fn fault_of_line(alloc: Global, length: usize) -> Result<Option<CertFault>, Fail> {
    let line: Vec<u8> = vec![in alloc; b'x'; length]?;
    fault_with(alloc, HEADER, &line)
}

#[test]
fn faults_of_texts(rt: HostRuntime) -> Result<(), Fail> {
    let texts: [(&[u8], CertFault); 5] = [
        (b"", CertFault::Truncated),
        (b"% x\nPITCERT 1\n", CertFault::Text(1)),
        (b"PITCERT 1\r\nBLOCKS 3\r\n", CertFault::Text(1)),
        (b"PITCERT 1\nBLOCKS 4\n", CertFault::Number(2)),
        (PAIR, CertFault::Text(4)),
    ];
    for (text, wanted) in texts {
        same(&rt, fault::<Worth>(rt.alloc(), text)?, Some(wanted));
    }
    let lengths = [(65_537, CertFault::Text(5)), (65_536, CertFault::Truncated)];
    for (length, wanted) in lengths {
        same(&rt, fault_of_line(rt.alloc(), length)?, Some(wanted));
    }
    Ok(())
}

#[test]
fn headers_are_read(rt: HostRuntime) {
    let wanted = Header {
        blocks: 3,
        price: Price::Objective,
        group: Group::Worth,
    };
    same(&rt, header(WORTH), Ok(wanted));
    let priced = Header {
        blocks: 16_777_216,
        price: Price::Factor(10_000),
        group: Group::Pair,
    };
    let text = b"PITCERT 1\nBLOCKS 16777216\nPRICE 10000\nGROUP PAIR\nx";
    same(&rt, header(text.as_slice()), Ok(priced));
    let milled = Header {
        blocks: 1,
        price: Price::Mill(200),
        group: Group::Scaled,
    };
    let text = b"PITCERT 2\nBLOCKS 1\nPRICE MILL 200\nGROUP SCALED\n";
    same(&rt, header(text.as_slice()), Ok(milled));
    let faulty: [(&[u8], CertFault); 3] = [
        (b"PITCERT 1\nBLOCKS \n", CertFault::Number(2)),
        (b"PITCERT 1\nBLOCKS 3\r\n", CertFault::Number(2)),
        (b"PITCERT 1\nBLOCKS 3\nPRICE foo\n", CertFault::Number(3)),
    ];
    for (text, wanted) in faulty {
        same(&rt, header(text), Err(wanted));
    }
}

fn written<G: OrderedGroup>(
    alloc: Global,
    read: &Certificate<G>,
    rests: &Rests,
) -> Result<Vec<u8>, Fail>
    requires { Covers rests.now.blocks (length rests.now.pairs) read.now.flow }
{
    let mut out = Counted::new(Vec::new(alloc));
    let Ok(()) = write_certificate(read, rests, &mut out) else {
        return Err(Fail::from("written"));
    };
    Ok(out.into_inner())
}

// Fails the test where a certificate isn't written as its text.
fn is_written_as<G: OrderedGroup>(
    rt: &impl Abort,
    alloc: Global,
    read: &Certificate<G>,
    rests: &Rests,
    text: &[u8],
) -> Result<(), Fail>
    requires { Covers rests.now.blocks (length rests.now.pairs) read.now.flow }
{
    let written = written(alloc, read, rests)?;
    same(rt, written.as_slice(), text);
    Ok(())
}

// Fails the test where a text that is read over these pairs isn't written again as it was.
fn is_rewritten<G: OrderedGroup>(
    rt: &impl Abort,
    alloc: Global,
    n: u32,
    pairs: &[(u32, u32)],
    text: &[u8],
) -> Result<(), Fail>
    requires { n ≤ MOST_BLOCKS }
{
    let rests = rests_of(alloc, n, pairs)?;
    let read = read_over::<G>(alloc, text, &rests)?;
    is_written_as(rt, alloc, &read, &rests, text)
}

#[test]
fn worked_certificates_are_written_as_they_were_read(rt: HostRuntime) -> Result<(), Fail> {
    let worked: [(u32, &[(u32, u32)], &[u8]); 8] = [
        (3, &[(0, 2), (1, 2)], PAIR),
        (
            1,
            &[],
            b"PITCERT 2\nBLOCKS 1\nPRICE MILL 1000\nGROUP PAIR\nPIT 0\nEND\n",
        ),
        (
            0,
            &[],
            b"PITCERT 1\nBLOCKS 0\nPRICE OBJECTIVE\nGROUP PAIR\nEND\n",
        ),
        (
            1,
            &[],
            b"PITCERT 1\nBLOCKS 1\nPRICE OBJECTIVE\nGROUP PAIR\nEND\n",
        ),
        (
            1,
            &[],
            b"PITCERT 1\nBLOCKS 1\nPRICE OBJECTIVE\nGROUP PAIR\nPIT 0\nEND\n",
        ),
        (
            2,
            &[(0, 1)],
            b"PITCERT 1\nBLOCKS 2\nPRICE OBJECTIVE\nGROUP PAIR\nSOURCE 0 10000000000 -1\nREST 0 1 10000000000 -1\nSINK 1 10000000000 -1\nEND\n",
        ),
        (
            2,
            &[(0, 1), (1, 0)],
            b"PITCERT 1\nBLOCKS 2\nPRICE OBJECTIVE\nGROUP PAIR\nPIT 0\nPIT 1\nSOURCE 0 2000000000 1\nREST 0 1 2000000000 1\nSINK 1 2000000000 1\nEND\n",
        ),
        (
            2,
            &[],
            b"PITCERT 1\nBLOCKS 2\nPRICE OBJECTIVE\nGROUP PAIR\nSOURCE 0 5000000000 -1\nSINK 1 5000000000 -1\nEND\n",
        ),
    ];
    for (n, pairs, text) in worked {
        if n <= 3 {
            is_rewritten::<WorthSize>(&rt, rt.alloc(), n, pairs, text)?;
        }
    }
    is_rewritten::<Worth>(&rt, rt.alloc(), 3, &[(0, 2), (1, 2)], WORTH)
}

// Fails the test where the certificate of these pairs isn't accepted, with the worth of its pit.
fn is_accepted(
    rt: &impl Abort,
    alloc: Global,
    rests: Rests,
    read: &Certificate<Scaled>,
) -> Result<(), Fail> {
    let nanos = [6_000_000_000, 5_000_000_000, -10_000_000_000];
    let net: Net<Scaled> = Net::of_worths(alloc, rests, &nanos).ok().ok_or("net")?;
    let accepted = check(&net, &read.pit, &read.flow).ok().ok_or("refused")?;
    same(rt, accepted.pit().blocks(), [0, 1, 2].as_slice());
    let worth = accepted.worth();
    same(
        rt,
        worth,
        Scaled {
            units: 3_999_999_997,
        },
    );
    same(rt, worth.nanos_of_set(3, 3), Some(1_000_000_000));
    Ok(())
}

#[test]
fn units_are_read_checked_and_written(rt: HostRuntime) -> Result<(), Fail> {
    let alloc: Global = rt.alloc();
    let rests = rests(alloc)?;
    let read = read_over::<Scaled>(alloc, UNITS, &rests)?;
    is_written_as(&rt, alloc, &read, &rests, UNITS)?;
    is_accepted(&rt, alloc, rests, &read)
}
