//! Where each number lies among the words: what has arrived at the source and at the sink, then for each block its
//! excess, its label, its source amount and its room at the sink, and for each pair its flow.

ghost use Rattle.std.specs.Prelude.{◌≡◌, ◌<◌, length};
ghost use Rattle.machine_law.specs.Residual.{IsEnd};
ghost use Rattle.word_steps.specs.Layout.{width, excess_at, label_at, source_at, room_at, flow_at};
ghost use Rattle.word_steps.specs.StepWords.{capacity_word, landing_word, look_word, word_of};
ghost use Rattle.word_steps.specs.Turns.{IsPlaced};

use closure_net::{Net, PortKind};
use machine_law::Operation;
use ordered_group::Scaled;

/// The index of the word with the excess of block x.
pub fn excess_word(net: &Net<Scaled>, x: u32) -> usize
    requires { x < length net.now.worths }
    ensures { (result ≡ excess_at net.now x) × (result < width net.now) }
{
    // proof: a net has at most `MOST_BLOCKS` blocks
    let _few = net.rests().len();
    2 + x as usize
}

/// The index of the word with the label of block x.
pub fn label_word(net: &Net<Scaled>, x: u32) -> usize
    requires { x < length net.now.worths }
    ensures { (result ≡ label_at net.now x) × (result < width net.now) }
{
    let n = net.rests().len() as usize;
    2 + n + x as usize
}

/// The index of the word with what block x has of the source.
pub fn source_word(net: &Net<Scaled>, x: u32) -> usize
    requires { x < length net.now.worths }
    ensures { (result ≡ source_at net.now x) × (result < width net.now) }
{
    let n = net.rests().len() as usize;
    2 + n + n + x as usize
}

/// The index of the word with the room of block x at the sink.
pub fn room_word(net: &Net<Scaled>, x: u32) -> usize
    requires { x < length net.now.worths }
    ensures { (result ≡ room_at net.now x) × (result < width net.now) }
{
    let n = net.rests().len() as usize;
    2 + n + n + n + x as usize
}

/// The index of the word with the flow of pair k.
pub fn flow_word(net: &Net<Scaled>, k: u32) -> usize
    requires { k < length net.now.pairs }
    ensures { (result ≡ flow_at net.now k) × (result < width net.now) }
{
    let n = net.rests().len() as usize;
    2 + n + n + n + n + k as usize
}

// The capacity of a port of b.
fn port_word(net: &Net<Scaled>, b: u32, kind: PortKind, _other: u32, slot: u32) -> usize
    requires known { b < length net.now.worths }
    requires port { IsEnd net.now b kind _other slot }
    ensures { (result ≡ capacity_word net.now b kind slot) × (result < width net.now) }
{
    match kind {
        PortKind::Sink => room_word(net, b),
        PortKind::Forward => flow_word(net, slot),
        PortKind::Backward => flow_word(net, slot),
        PortKind::Source => source_word(net, b),
    }
}

// What the first read at a port of b reads.
fn first_word(net: &Net<Scaled>, b: u32, kind: PortKind, other: u32, slot: u32) -> usize
    requires known { b < length net.now.worths }
    requires other { other < length net.now.worths }
    requires port { IsEnd net.now b kind other slot }
    ensures { (result ≡ look_word net.now b kind other slot) × (result < width net.now) }
{
    match kind {
        PortKind::Sink => room_word(net, b),
        PortKind::Forward => label_word(net, other),
        PortKind::Backward => flow_word(net, slot),
        PortKind::Source => source_word(net, b),
    }
}

// Where a push over a port arrives.
fn arrival_word(net: &Net<Scaled>, kind: PortKind, other: u32) -> usize
    requires other { other < length net.now.worths }
    ensures { (result ≡ landing_word net.now kind other) × (result < width net.now) }
{
    match kind {
        PortKind::Sink => 1,
        PortKind::Forward => excess_word(net, other),
        PortKind::Backward => excess_word(net, other),
        PortKind::Source => 0,
    }
}

/// The word of the step that is next for block b, which has this operation.
pub fn next_word(net: &Net<Scaled>, b: u32, operation: &Operation<u64>) -> usize
    requires known { b < length net.now.worths }
    requires placed { IsPlaced net.now b operation.now }
    ensures { (result ≡ word_of net.now b operation.now) × (result < width net.now) }
{
    // proof: the pairs of a net are of its blocks
    let _net = net.worths();
    match *operation {
        Operation::Idle => excess_word(net, b),
        Operation::Scan {
            have: _,
            place,
            read,
            best: _,
        } => {
            let port = net.port(b, place);
            match read {
                None => first_word(net, b, port.kind, port.other, port.slot),
                Some(_) => label_word(net, port.other),
            }
        }
        Operation::PushDue { have: _, best } => {
            port_word(net, b, best.port.kind, best.port.other, best.port.slot)
        }
        Operation::TakeDue { amount: _, port: _ } => excess_word(net, b),
        Operation::GiveDue { amount: _, port } => arrival_word(net, port.kind, port.other),
        Operation::RaiseDue { have: _, best: _ } => label_word(net, b),
    }
}
