//! Judges a certificate for a mine that was read: takes the price and the kind of amounts from its header, and gives
//! what the check decides of its pit.

ghost use Rattle.std.specs.Prelude.{◌≡◌, ◌≢◌, ◌+◌, ◌-◌, ◌^◌, ◌<◌, ℕ, List, length, Some, Ok, Err, IfSome, IfOk, MatchResult, IsErrOf};
ghost use Rattle.std.specs.Thread.{IsSync};
ghost use Rattle.prec_file.specs.Rests.{RestsView};
ghost use Rattle.certificate_file.specs.Pieces.{pieces_of};
ghost use Rattle.certificate_file.specs.Header.{header_of};
ghost use Rattle.closure_net.specs.Network.{holds_of, IsAscending};
ghost use Rattle.closure_net.specs.Closure.{group_worth, IsGreatest};
ghost use Rattle.check_pit.specs.CertStreams.{IsReadFor};
ghost use Rattle.check_pit.specs.declared.pit_fault.PitFault.{PitFault};
ghost use Rattle.check_pit.specs.declared.stream_fault.StreamFault.TheVariants as stream;
ghost use Rattle.mine_inputs.specs.Mines.{MineTexts, DenoteMine};
ghost use Rattle.check_engines.specs.Readings.{IsHeader, IsGroupNamed};
ghost use Rattle.check_engines.specs.FaultStands.{Fails};
ghost use Rattle.check_engines.specs.Judging.{Judges, IsFresh, IsUndecided, StandsAfter, of_stream, factor_in};
ghost use Rattle.mine_inputs.specs.ReadMines.{AreRead, IsMineRead};

use crate::judgement::Judgement;
use check_pit::{
    AcceptedPit, CertFault, CertStream, Header, HeldGraph, Room, StreamBytes, StreamFault,
    check_held, graph_of_worths,
};
use closure_net::laws;
use counted_devices::CountedRead;
use engine_faults::{CertificateProblem, EngineFault};
use held_pairs::HeldPairs;
use mine_inputs::{HeldMine, Worths};
use ordered_group::{Group, OrderedGroup, Scaled, Worth, WorthSize};
use std::alloc::Global;
use std::thread::Threads;

/// A mine that a certificate is judged for.
#[derive(Drop)]
pub(crate) struct Case<'a, R> {
    pub(crate) rt: &'a R,
    pub(crate) alloc: Global,
    pub(crate) mine: HeldMine,
}

/// What the certificate that a device gives proves for a mine that was read, or why it can't be judged. Where the
/// blocks have prices they are worth what these give at the factor that the certificate names. It is read line by line,
/// up to its end or to its first fault, from a stream that holds the device meanwhile. The device is handed back.
///
/// # Errors
/// `Certificate` with the first fault of the certificate, `WrongPrice` among them; `Model` where an amount of the net
/// doesn't fit; `Device` where a read fails, and `Memory` where memory is refused.
pub(crate) fn judge<R: Threads + Sync, C: CountedRead>(
    device: C,
    case: Case<'_, R>,
) -> (C, Result<Judgement, EngineFault>)
    requires count { C.failed device < 2 ^ 64 - 1 }
    requires sync { IsSync R.row }
    ensures judged { IfSome (C.remaining device) (λ c. (texts : MineTexts)
        → IsMineRead texts (factor_in c) case.entry.mine.worths case.entry.mine.predecessors
        → Judges texts c result.1) }
    ensures device { IsErrOf result.1 EngineFault.Device → C.failed result.0 ≡ C.failed device + 1 }
    ensures kept { ¬ IsErrOf result.1 EngineFault.Device → C.failed result.0 ≡ C.failed device }
{
    let Case { rt, alloc, mine } = case;
    let Ok(held) = StreamBytes::new(alloc) else {
        return (device, Err(EngineFault::Memory));
    };
    let mut stream = CertStream::over(held, device);
    let judgement = match price_mine(rt, alloc, mine, &mut stream) {
        Ok(priced) => judge_priced(alloc, priced, &mut stream),
        Err(fault) => Err(fault),
    };
    (stream.into_device(), judgement)
}

/// The header of a certificate for a mine of `n` blocks.
///
/// # Errors
/// `Certificate` with the first fault of the header, or with that of its number of blocks where the mine has another;
/// `Device` where a read fails, and `Memory` where memory is refused.
pub fn header_for<C: CountedRead>(stream: &mut CertStream<C>, n: u32) -> Result<Header, EngineFault>
    requires count { C.failed stream.old.lines.from < 2 ^ 64 - 1 }
    requires fresh { IsFresh stream.old }
    ensures read { IfSome (C.remaining stream.old.lines.from) (λ c. MatchResult result
        (λ header. (header_of (pieces_of c) ≡ Ok header)
        × StandsAfter C.remaining c stream.new.lines)
        (λ fault. (texts : MineTexts) → DenoteMine texts n → Fails texts c fault)) }
    ensures blocks { IfOk result (λ header. (header.blocks ≡ n)
        × (stream.new.header ≡ Some header)) }
    ensures open { IfOk result (λ _. IsUndecided stream.new) }
    ensures device { IsErrOf result EngineFault.Device
        → C.failed stream.new.lines.from ≡ C.failed stream.old.lines.from + 1 }
    ensures kept { ¬ IsErrOf result EngineFault.Device
        → C.failed stream.new.lines.from ≡ C.failed stream.old.lines.from }
{
    let header = match stream.header() {
        Ok(header) => header,
        Err(fault) => return Err(header_fault(fault)),
    };
    if header.blocks != n {
        return Err(EngineFault::from(CertFault::Number(2)));
    }
    Ok(header)
}

// What the blocks of a mine are worth by the header of a certificate, and the group of its amounts.
#[derive(Drop)]
struct PricedBlocks {
    group: Group,
    nanos: Vec<i128>,
}

/// A mine whose blocks are worth so many billionths by the header of a certificate, which counts in amounts of this
/// group.
#[derive(Drop)]
pub struct PricedMine {
    /// The group of the certificate's amounts.
    pub group: Group,
    /// What each block is worth.
    pub nanos: Vec<i128>,
    /// Who rests on whom.
    pub predecessors: HeldPairs,
}

// Reads the header of a certificate for a mine of so many blocks, and gives what they are worth by it. The values or
// prices are given back.
fn price_blocks<R: Threads + Sync, C: CountedRead>(
    rt: &R,
    alloc: Global,
    worths: Worths,
    blocks: u32,
    stream: &mut CertStream<C>,
) -> Result<PricedBlocks, EngineFault>
    requires count { C.failed stream.old.lines.from < 2 ^ 64 - 1 }
    requires fresh { IsFresh stream.old }
    ensures priced { (rests : RestsView) → rests.blocks ≡ blocks
        → IfSome (C.remaining stream.old.lines.from) (λ c. (texts : MineTexts)
        → IsMineRead texts (factor_in c) worths rests
        → MatchResult result
        (λ m. AreRead texts m.nanos.items rests
        × IsHeader texts c rests.blocks m.group
        × StandsAfter C.remaining c stream.new.lines)
        (Fails texts c)) }
    ensures header { IfOk result
        (λ m. IsReadFor blocks m.group stream.new.header stream.new.fault) }
    ensures open { IfOk result (λ _. IsUndecided stream.new) }
    ensures device { IsErrOf result EngineFault.Device
        → C.failed stream.new.lines.from ≡ C.failed stream.old.lines.from + 1 }
    ensures kept { ¬ IsErrOf result EngineFault.Device
        → C.failed stream.new.lines.from ≡ C.failed stream.old.lines.from }
{
    let header = header_for(stream, blocks)?;
    let Some(factor) = worths.factor_of(header.price) else {
        return Err(EngineFault::Certificate(CertificateProblem::WrongPrice));
    };
    let nanos = worths.nanos_at(rt, alloc, factor)?;
    Ok(PricedBlocks {
        group: header.group,
        nanos,
    })
}

/// Reads the header of a certificate for a mine, and gives what its blocks are worth by it. The values or prices are
/// given back.
///
/// # Errors
/// `Certificate` with the first fault of the header, where it has another number of blocks, or with `WrongPrice`;
/// `Device` where a read fails, and `Memory` where memory is refused.
pub fn price_mine<R: Threads + Sync, C: CountedRead>(
    rt: &R,
    alloc: Global,
    mine: HeldMine,
    stream: &mut CertStream<C>,
) -> Result<PricedMine, EngineFault>
    requires count { C.failed stream.old.lines.from < 2 ^ 64 - 1 }
    requires fresh { IsFresh stream.old }
    ensures priced { IfSome (C.remaining stream.old.lines.from) (λ c. (texts : MineTexts)
        → IsMineRead texts (factor_in c) mine.worths mine.predecessors
        → MatchResult result
        (λ m. AreRead texts m.nanos.items m.predecessors
        × IsHeader texts c m.predecessors.blocks m.group
        × StandsAfter C.remaining c stream.new.lines)
        (Fails texts c)) }
    ensures blocks { IfOk result (λ m. m.predecessors ≡ mine.predecessors) }
    ensures header { IfOk result
        (λ m. IsReadFor m.predecessors.blocks m.group stream.new.header stream.new.fault) }
    ensures open { IfOk result (λ _. IsUndecided stream.new) }
    ensures device { IsErrOf result EngineFault.Device
        → C.failed stream.new.lines.from ≡ C.failed stream.old.lines.from + 1 }
    ensures kept { ¬ IsErrOf result EngineFault.Device
        → C.failed stream.new.lines.from ≡ C.failed stream.old.lines.from }
{
    let HeldMine {
        worths,
        predecessors,
    } = mine;
    match price_blocks(rt, alloc, worths, predecessors.len(), stream) {
        Ok(priced) => Ok(PricedMine {
            group: priced.group,
            nanos: priced.nanos,
            predecessors,
        }),
        Err(fault) => Err(fault),
    }
}

// What is answered to a fault of the header, which is none of the pit.
fn header_fault(fault: StreamFault) -> EngineFault
    requires { (e : PitFault) → fault ≢ stream.Pit e }
    ensures { Err result ≡ of_stream fault }
{
    match fault {
        StreamFault::Device => EngineFault::Device,
        StreamFault::InputTooLong => { EngineFault::Certificate(CertificateProblem::InputTooLong) }
        StreamFault::Cert(fault) => EngineFault::from(fault),
        StreamFault::Pit(_) => unreachable!(),
    }
}

// What is answered to a fault of the lines: one of the pit is a judgement.
fn judgement_of(fault: StreamFault) -> Result<Judgement, EngineFault>
    ensures { result ≡ of_stream fault }
{
    match fault {
        StreamFault::Device => Err(EngineFault::Device),
        StreamFault::InputTooLong => Err(EngineFault::Certificate(
            CertificateProblem::InputTooLong,
        )),
        StreamFault::Cert(fault) => Err(EngineFault::from(fault)),
        StreamFault::Pit(fault) => Ok(Judgement::Refused(fault)),
    }
}

/// What the certificate proves, where its header is read and the blocks are worth so many billionths by it.
///
/// # Errors
/// `Certificate` with the first fault after the header; `Model` where an amount of the net doesn't fit; `Device` where
/// a read fails, and `Memory` where memory is refused.
pub fn judge_priced<C: CountedRead>(
    alloc: Global,
    mine: PricedMine,
    stream: &mut CertStream<C>,
) -> Result<Judgement, EngineFault>
    requires count { C.failed stream.old.lines.from < 2 ^ 64 - 1 }
    requires open { IsUndecided stream.old }
    requires header { IsReadFor
        mine.predecessors.blocks mine.group stream.old.header stream.old.fault }
    ensures judged { (texts : MineTexts) (c : List ℕ)
        → AreRead texts mine.nanos.items mine.predecessors
        → IsHeader texts c mine.predecessors.blocks mine.group
        → StandsAfter C.remaining c stream.old.lines → Judges texts c result }
    ensures device { IsErrOf result EngineFault.Device
        → C.failed stream.new.lines.from ≡ C.failed stream.old.lines.from + 1 }
    ensures kept { ¬ IsErrOf result EngineFault.Device
        → C.failed stream.new.lines.from ≡ C.failed stream.old.lines.from }
{
    // proof: a greatest set of the net is a pit that is worth most, and of amounts with sizes the best one
    laws::greatest_set_is_richest_pit();
    laws::greatest_set_is_best_pit::<WorthSize>();
    laws::greatest_set_is_best_pit::<Scaled>();
    match mine.group {
        Group::Worth => judge_by::<Worth, C>(alloc, mine, stream),
        Group::Pair => judge_by::<WorthSize, C>(alloc, mine, stream),
        Group::Scaled => judge_by::<Scaled, C>(alloc, mine, stream),
    }
}

// Judges the stream after its header for this mine, in amounts of the group G.
fn judge_by<G: OrderedGroup, C: CountedRead>(
    alloc: Global,
    mine: PricedMine,
    stream: &mut CertStream<C>,
) -> Result<Judgement, EngineFault>
    requires count { C.failed stream.old.lines.from < 2 ^ 64 - 1 }
    requires open { IsUndecided stream.old }
    requires header { IsReadFor mine.predecessors.blocks G.name stream.old.header stream.old.fault }
    ensures judged { (texts : MineTexts) (c : List ℕ)
        → AreRead texts mine.nanos.items mine.predecessors
        → IsGroupNamed G.name G.block_parts G.counts
        → IsHeader texts c mine.predecessors.blocks G.name
        → StandsAfter C.remaining c stream.old.lines → Judges texts c result }
    ensures device { IsErrOf result EngineFault.Device
        → C.failed stream.new.lines.from ≡ C.failed stream.old.lines.from + 1 }
    ensures kept { ¬ IsErrOf result EngineFault.Device
        → C.failed stream.new.lines.from ≡ C.failed stream.old.lines.from }
{
    let PricedMine {
        nanos,
        predecessors,
        ..
    } = mine;
    let graph = graph_of_worths::<G>(alloc, &predecessors, &nanos)?;
    drop(nanos);
    let net = HeldGraph::with_pairs(graph.as_ref(), &predecessors);
    // proof: what is known of every net, that its pairs are of its blocks and in order
    let _worths = net.worths();
    let mut room = Room::of_blocks(alloc, net.len())?;
    match check_held(stream, net, &mut room) {
        Ok(accepted) => {
            let (count, worth) = size_and_worth(&accepted);
            Ok(Judgement::Accepted {
                group: G::group(),
                count,
                worth,
            })
        }
        Err(fault) => judgement_of(fault),
    }
}

/// The number of blocks of an accepted pit, and what they are worth in billionths.
pub fn size_and_worth<G: OrderedGroup>(accepted: &AcceptedPit<'_, G>) -> (u32, i128)
    ensures size { result.0 ≡ length accepted.now.pit }
    ensures ascending { IsAscending accepted.now.pit }
    ensures worth { result.1 ≡ G.set_worth (group_worth accepted.now.net.worths
        (holds_of accepted.now.pit)) (length accepted.now.net.worths) result.0 }
    ensures greatest { IsGreatest accepted.now.net (holds_of accepted.now.pit) }
{
    // proof: a net has at most `MOST_BLOCKS` blocks
    let size = accepted.graph().len();
    let blocks = accepted.pit().blocks();
    let count = blocks.len() as u32;
    let sum = accepted.worth();
    // proof: the numbers of the sum fit their types
    let (_worth, _count) = sum.parts();
    match sum.nanos_of_set(size, count) {
        Some(worth) => (count, worth),
        None => unreachable!(),
    }
}
