//! Tries checks of certificates that a device gives line by line: which are accepted, in what order faults are found,
//! and what a failed read leads to.

ghost use Rattle.std.specs.Prelude.{◌≡◌, length, IfOk};
ghost use Rattle.check_pit.specs.CertStreams.{IsReadFor};
ghost use Rattle.ordered_group.specs.declared.groups.Group.TheVariants as group;

use crate::pits_and_flows::three_blocks;
use check_pit::{Accepted, CertFault, CertStream, PitFault, Room, StreamFault, check_stream};
use closure_net::Net;
use counted_devices::{Counted, Failing, Failure};
use ordered_group::{Group, WorthSize};
use std::alloc::Global;
use std::process::Abort;
use std::test::Fail;

const HEADER: &[u8] = b"PITCERT 1\nBLOCKS 3\nPRICE OBJECTIVE\nGROUP PAIR\n";

const WHOLE: &[u8] =
    b"PIT 0\nPIT 1\nPIT 2\nSOURCE 0 6 -1\nSOURCE 1 4 2\nREST 0 2 6 -1\nREST 1 2 4 2\nSINK 2 10 1\nEND\n";

type Device<'a> = Counted<Failing<&'a [u8]>>;

// The header, and these lines after it.
fn with_header(alloc: Global, body: &[u8]) -> Result<Vec<u8>, Fail> {
    let mut text = Vec::from_slice(alloc, HEADER)?;
    text.extend_from_slice(body)?;
    Ok(text)
}

// Reads the header, which has to be one of worths and sizes, for the net.
fn pass_header(stream: &mut CertStream<Device<'_>>, net: &Net<WorthSize>) -> Result<(), Fail>
    requires { stream.old.lines.from.failures ≡ 0 }
    ensures few { IfOk result (λ _. stream.new.lines.from.failures ≡ 0) }
    ensures read { IfOk result
        (λ _. IsReadFor (length net.now.worths) group.Pair stream.new.header stream.new.fault) }
{
    let Ok(header) = stream.header() else {
        return Err(Fail::from("header"));
    };
    let Group::Pair = header.group else {
        return Err(Fail::from("group"));
    };
    if header.blocks != net.len() {
        return Err(Fail::from("blocks"));
    }
    Ok(())
}

// A text of which each read gives at most so many bytes and one read fails, after its header.
fn stream_of<'a>(
    alloc: Global,
    text: &'a [u8],
    most: usize,
    fails_at: u64,
    net: &Net<WorthSize>,
) -> Result<CertStream<Device<'a>>, Fail>
    ensures few { IfOk result (λ s. s.lines.from.failures ≡ 0) }
    ensures read { IfOk result
        (λ s. IsReadFor (length net.now.worths) group.Pair s.header s.fault) }
{
    let device = Failing::new(text, most, fails_at, Failure::Broken);
    let mut stream = CertStream::new(alloc, Counted::new(device))?;
    pass_header(&mut stream, net)?;
    Ok(stream)
}

fn worth_of(
    answer: Result<Accepted<'_, WorthSize>, StreamFault>,
) -> Result<WorthSize, StreamFault> {
    match answer {
        Ok(accepted) => Ok(accepted.worth()),
        Err(fault) => Err(fault),
    }
}

// What a check of a text answers in this room.
fn answer_to(
    alloc: Global,
    room: &mut Room<WorthSize>,
    net: &Net<WorthSize>,
    text: &[u8],
) -> Result<Result<WorthSize, StreamFault>, Fail>
    requires { length room.old.balances ≡ length net.now.worths }
{
    let mut stream = stream_of(alloc, text, 16, 0, net)?;
    Ok(worth_of(check_stream(&mut stream, net, room)))
}

// What a check of lines after the header answers in this room.
fn answer_in(
    alloc: Global,
    room: &mut Room<WorthSize>,
    net: &Net<WorthSize>,
    body: &[u8],
) -> Result<Result<WorthSize, StreamFault>, Fail> {
    if !room.is_for(net.len()) {
        return Err(Fail::from("room"));
    }
    let text = with_header(alloc, body)?;
    answer_to(alloc, room, net, &text)
}

// Two checks of the stream, one after the other.
fn both_answers(
    stream: &mut CertStream<Device<'_>>,
    net: &Net<WorthSize>,
    room: &mut Room<WorthSize>,
    other: &mut Room<WorthSize>,
) -> [Result<WorthSize, StreamFault>; 2]
    requires few { stream.old.lines.from.failures ≡ 0 }
    requires read { IsReadFor
        (length net.now.worths) group.Pair stream.old.header stream.old.fault }
    requires room { length room.old.balances ≡ length net.now.worths }
    requires other { length other.old.balances ≡ length net.now.worths }
{
    let first = worth_of(check_stream(stream, net, room));
    let second = worth_of(check_stream(stream, net, other));
    [first, second]
}

// Two checks of the stream, one after the other, each in a room of its own.
fn answers_in_rooms(
    alloc: Global,
    stream: &mut CertStream<Device<'_>>,
    net: &Net<WorthSize>,
) -> Result<[Result<WorthSize, StreamFault>; 2], Fail>
    requires few { stream.old.lines.from.failures ≡ 0 }
    requires read { IsReadFor
        (length net.now.worths) group.Pair stream.old.header stream.old.fault }
{
    let mut room = Room::new(alloc, net)?;
    let mut other = Room::new(alloc, net)?;
    Ok(both_answers(stream, net, &mut room, &mut other))
}

// Two checks of a text, where one read of it fails.
fn answers_over(
    alloc: Global,
    text: &[u8],
    fails_at: u64,
    net: &Net<WorthSize>,
) -> Result<[Result<WorthSize, StreamFault>; 2], Fail> {
    let mut stream = stream_of(alloc, text, 16, fails_at, net)?;
    answers_in_rooms(alloc, &mut stream, net)
}

// Two checks of a certificate of three blocks that has these lines after its header, where one read of it fails.
fn answers_of(
    alloc: Global,
    body: &[u8],
    fails_at: u64,
) -> Result<[Result<WorthSize, StreamFault>; 2], Fail> {
    let net = three_blocks(alloc)?;
    let text = with_header(alloc, body)?;
    answers_over(alloc, &text, fails_at, &net)
}

// Lines after the header, and what a check of them answers.
type Row = (&'static [u8], Result<WorthSize, StreamFault>);

// Checks of three blocks in one room, one after another.
fn have_their_answers(rt: &impl Abort, alloc: Global, rows: &[Row]) -> Result<(), Fail> {
    let net = three_blocks(alloc)?;
    let mut room = Room::new(alloc, &net)?;
    for (body, wanted) in rows {
        let answer = answer_in(alloc, &mut room, &net, body)?;
        assert!(rt; answer == *wanted);
    }
    Ok(())
}

fn refused(fault: PitFault) -> Result<WorthSize, StreamFault> {
    Err(StreamFault::Pit(fault))
}

fn faulty(fault: CertFault) -> Result<WorthSize, StreamFault> {
    Err(StreamFault::Cert(fault))
}

#[test]
fn a_certificate_is_accepted_once(rt: HostRuntime) -> Result<(), Fail> {
    let [first, second] = answers_of(rt.alloc(), WHOLE, 0)?;
    assert!(rt; first == Ok(WorthSize { nanos: 1, size: -3 }));
    assert!(rt; second == faulty(CertFault::Truncated));
    Ok(())
}

#[test]
fn a_failed_read_accepts_nothing(rt: HostRuntime) -> Result<(), Fail> {
    let [first, second] = answers_of(rt.alloc(), WHOLE, 4)?;
    assert!(rt; first == Err(StreamFault::Device));
    assert!(rt; second == Err(StreamFault::Device));
    Ok(())
}

// What a check has given to a block isn't there in the next one: by END alone each block is balanced.
#[test]
fn faults_come_in_their_order_in_one_room(rt: HostRuntime) -> Result<(), Fail> {
    let rows: [Row; 8] = [
        (
            b"PIT 0\nPIT 1\nPIT 2\nSOURCE 0 6 -1\n",
            faulty(CertFault::Truncated),
        ),
        (b"PIT 0\nSOURCE 9 -1 1\nEND\n", faulty(CertFault::Number(6))),
        (b"REST 0 1 -1 0\n", faulty(CertFault::UnknownPair(5))),
        (
            b"PIT 0\nPIT 1\nSOURCE 0 -6 -1\n",
            refused(PitFault::NotClosed(0, 2)),
        ),
        (
            b"SOURCE 0 5 170141183460469231731687303715884105727\n",
            refused(PitFault::TooLarge),
        ),
        (
            b"PIT 0\nPIT 2\nSOURCE 0 6 -1\nEND\n",
            refused(PitFault::Unbalanced(0)),
        ),
        (b"END\n", refused(PitFault::NotTight)),
        (WHOLE, Ok(WorthSize { nanos: 1, size: -3 })),
    ];
    have_their_answers(&rt, rt.alloc(), rows.as_slice())
}

// How many reads of at most so many bytes the header takes.
fn reads_of_header(
    alloc: Global,
    text: &[u8],
    most: usize,
    net: &Net<WorthSize>,
) -> Result<u64, Fail> {
    let stream = stream_of(alloc, text, most, 0, net)?;
    Ok(stream.into_device().into_inner().calls())
}

// How many of them the header takes together with a check after it.
fn reads_of_check(
    alloc: Global,
    text: &[u8],
    most: usize,
    net: &Net<WorthSize>,
) -> Result<u64, Fail> {
    let mut stream = stream_of(alloc, text, most, 0, net)?;
    let mut room = Room::new(alloc, net)?;
    let _ = worth_of(check_stream(&mut stream, net, &mut room));
    Ok(stream.into_device().into_inner().calls())
}

fn reads_of(alloc: Global, text: &[u8], most: usize) -> Result<[u64; 2], Fail> {
    let net = three_blocks(alloc)?;
    Ok([
        reads_of_header(alloc, text, most, &net)?,
        reads_of_check(alloc, text, most, &net)?,
    ])
}

// The header has 46 bytes. The end is found by one read more than there are bytes, where each gives one; and no read is
// made for a line that is held, as that after END.
#[test]
fn a_stream_is_read_only_where_no_line_is_held(rt: HostRuntime) -> Result<(), Fail> {
    let alloc = rt.alloc();
    let mut text = with_header(alloc, WHOLE)?;
    assert!(rt; reads_of(alloc, &text, 16)?[0] == 3);
    assert!(rt; reads_of(alloc, &text, 1)? == [46, text.len() as u64 + 1]);
    text.extend_from_slice(b"PIT 0\n")?;
    assert!(rt; reads_of(alloc, &text, 1_000)? == [1, 1]);
    Ok(())
}
