//! Decides what a block does next by the word that it has read, and how many units a push moves.

ghost use Rattle.std.specs.Prelude.{◌≡◌, ◌<◌, length};
ghost use Rattle.closure_net.specs.Ports.{ports};
ghost use Rattle.machine_law.specs.Residual.{label_beyond};
ghost use Rattle.machine_law.specs.Reads.{after_port as operation_after_port, after_label as operation_after_label};
ghost use Rattle.word_steps.specs.StepWords.{after_capacity_word, after_look_word, operation_begun_by_word, smaller_of, push_units as units_of_push, after as after_step};
ghost use Rattle.word_steps.specs.Turns.{IsPlaced};

use closure_net::{Net, Port, PortKind};
use machine_law::{Best, Operation, after_last_port, better};
use ordered_group::Scaled;

// Where a block is in its look over its ports.
#[derive(Clone, Copy)]
struct Scan {
    label: u64, // the block's own
    have: u64, // its excess
    place: u32, // of the port
    best: Option<Best<u64>>,
}

// The operation once the port at this place is passed.
fn after_port(count: u32, scan: Scan) -> Operation<u64>
    requires { scan.place < count }
    ensures { result ≡ operation_after_port count scan.label scan.have scan.place scan.best }
{
    if scan.place + 1 < count {
        Operation::Scan {
            have: scan.have,
            place: scan.place + 1,
            read: None,
            best: scan.best,
        }
    } else {
        after_last_port(scan.label, scan.have, scan.best)
    }
}

// The operation once a capacity is read.
fn after_capacity(count: u32, scan: Scan, x: u64) -> Operation<u64>
    requires { scan.place < count }
    ensures { result ≡ after_capacity_word count scan.label scan.have scan.place scan.best x }
{
    if x > 0 {
        Operation::Scan {
            have: scan.have,
            place: scan.place,
            read: Some(x),
            best: scan.best,
        }
    } else {
        after_port(count, scan)
    }
}

// The label beyond a port, where the word has x.
fn beyond(net: &Net<Scaled>, kind: PortKind, x: u64) -> u64
    ensures { result ≡ label_beyond net.now kind x }
{
    match kind {
        PortKind::Sink => 0,
        PortKind::Forward => x,
        PortKind::Backward => x,
        PortKind::Source => net.len() as u64 + 2,
    }
}

// The operation once a label is read.
fn after_label(count: u32, scan: Scan, capacity: u64, port: Port, beyond: u64) -> Operation<u64>
    requires { scan.place < count }
    ensures { result
        ≡ operation_after_label count scan.label scan.have scan.place scan.best capacity port
        beyond }
{
    let mut lowest = scan.best;
    let new = Best {
        port,
        capacity,
        label: beyond,
    };
    better(&mut lowest, new);
    after_port(
        count,
        Scan {
            best: lowest,
            ..scan
        },
    )
}

// The operation after the first read at a port.
fn after_look(net: &Net<Scaled>, b: u32, scan: Scan, port: Port, x: u64) -> Operation<u64>
    requires known { b < length net.now.worths }
    requires inside { scan.place < length (ports net.now b) }
    ensures { result
        ≡ after_look_word net.now b scan.label scan.have scan.place scan.best port port.kind x }
{
    let count = net.ports(b);
    match port.kind {
        PortKind::Sink => after_capacity(count, scan, x),
        PortKind::Forward => after_label(count, scan, 0, port, x),
        PortKind::Backward => after_capacity(count, scan, x),
        PortKind::Source => after_capacity(count, scan, x),
    }
}

fn smaller(have: u64, capacity: u64) -> u64
    ensures { result ≡ smaller_of have capacity }
{
    if capacity < have { capacity } else { have }
}

/// How many units a push over a port of this kind moves.
pub fn push_units(have: u64, kind: PortKind, capacity: u64) -> u64
    ensures { result ≡ units_of_push have kind capacity }
{
    match kind {
        PortKind::Sink => smaller(have, capacity),
        PortKind::Forward => have,
        PortKind::Backward => smaller(have, capacity),
        PortKind::Source => smaller(have, capacity),
    }
}

// The operation that a block begins where it has so many units.
fn begun(have: u64) -> Operation<u64>
    ensures { result ≡ operation_begun_by_word have }
{
    if have > 0 {
        Operation::Scan {
            have,
            place: 0,
            read: None,
            best: None,
        }
    } else {
        Operation::Idle
    }
}

/// The operation of b after its next step, where its word was x.
pub fn after(
    net: &Net<Scaled>,
    b: u32,
    label: u64,
    operation: &Operation<u64>,
    x: u64,
) -> Operation<u64>
    requires known { b < length net.now.worths }
    requires placed { IsPlaced net.now b operation.now }
    ensures { result ≡ after_step net.now b label operation.now x }
{
    match *operation {
        Operation::Idle => begun(x),
        Operation::Scan {
            have,
            place,
            read,
            best,
        } => {
            let port = net.port(b, place);
            let scan = Scan {
                label,
                have,
                place,
                best,
            };
            match read {
                None => after_look(net, b, scan, port, x),
                Some(capacity) => {
                    let end = beyond(net, port.kind, x);
                    after_label(net.ports(b), scan, capacity, port, end)
                }
            }
        }
        Operation::PushDue { have, best } => Operation::TakeDue {
            amount: push_units(have, best.port.kind, best.capacity),
            port: best.port,
        },
        Operation::TakeDue { amount, port } => Operation::GiveDue { amount, port },
        Operation::GiveDue { amount: _, port: _ } => Operation::Idle,
        Operation::RaiseDue { have: _, best: _ } => Operation::Idle,
    }
}
