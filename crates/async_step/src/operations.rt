//! Decides what a block does next once it has read its excess, a capacity or a label: look at the next residual arc,
//! push, raise its label, or end its operation.

ghost use Rattle.std.specs.Prelude.{◌≡◌};
ghost use Rattle.machine_law.specs.Operations.{operation_as};
ghost use Rattle.machine_law.specs.Reads.{operation_begun_with, LooksAtPort};
ghost use Rattle.async_step.specs.Scans.{with_candidate, after_capacity_by, after_label_by};
ghost use Rattle.machine_law.specs.Steps.{read_kind, push_kind, push_amount};

use crate::predicates::is_positive;
use closure_net::{Port, PortKind};
use machine_law::{Best, Kind, Operation, better, pass};
use ordered_group::{OrderedGroup, smaller};

/// The kind of the first step at a port.
pub fn read_kind(port: Port) -> Kind
    ensures { result ≡ read_kind port.kind }
{
    match port.kind {
        PortKind::Sink => Kind::ReadCapacity,
        PortKind::Forward => Kind::ReadLabel,
        PortKind::Backward => Kind::ReadCapacity,
        PortKind::Source => Kind::ReadCapacity,
    }
}

/// The kind of the capacity step of a push over a port.
pub fn push_kind(port: Port) -> Kind
    ensures { result ≡ push_kind port.kind }
{
    match port.kind {
        PortKind::Sink => Kind::TakeCapacity,
        PortKind::Forward => Kind::GiveCapacity,
        PortKind::Backward => Kind::TakeCapacity,
        PortKind::Source => Kind::TakeCapacity,
    }
}

/// The operation of a block that has read its excess.
pub fn operation_begun_with<G: OrderedGroup>(have: G) -> Operation<G>
    ensures { operation_as G.parts_of result ≡ operation_begun_with (G.parts_of have) }
{
    if is_positive(have) {
        Operation::Scan {
            have,
            place: 0,
            read: None,
            best: None,
        }
    } else {
        Operation::Idle
    }
}

/// The amount of a push over a port whose capacity was read as this.
pub fn push_amount<G: OrderedGroup>(have: G, port: Port, capacity: G) -> G
    ensures { G.parts_of result ≡ push_amount (G.parts_of have) port.kind (G.parts_of capacity) }
{
    match port.kind {
        PortKind::Sink => smaller(have, capacity),
        PortKind::Forward => have,
        PortKind::Backward => smaller(have, capacity),
        PortKind::Source => smaller(have, capacity),
    }
}

/// A block reads this capacity of the port that it looks at.
pub fn see<G: OrderedGroup>(operation: &mut Operation<G>, ports: u32, label: u64, capacity: G)
    requires { LooksAtPort ports operation.old }
    ensures { operation_as G.parts_of operation.new ≡ after_capacity_by ports label
        (G.parts_of capacity) (operation_as G.parts_of operation.old) }
{
    if !is_positive(capacity) {
        pass(operation, ports, label);
        return;
    }
    match operation {
        Operation::Scan {
            have: _,
            place: _,
            read,
            best: _,
        } => *read = Some(capacity),
        _ => {}
    }
}

/// The port that a block looks at may be the best so far: the lower, and of two as low the earlier.
pub fn weigh<G: OrderedGroup>(operation: &mut Operation<G>, port: Port, label: u64)
    ensures { operation_as G.parts_of operation.new ≡ with_candidate port label
        (operation_as G.parts_of operation.old) }
{
    match operation {
        Operation::Scan {
            have: _,
            place: _,
            read,
            best,
        } => {
            let capacity = match read {
                Some(capacity) => *capacity,
                None => G::zero(),
            };
            let new = Best {
                port,
                capacity,
                label,
            };
            better(best, new);
        }
        _ => {}
    }
}

/// A block of so many ports and this label reads the label beyond the port that it looks at.
pub fn choose<G: OrderedGroup>(
    operation: &mut Operation<G>,
    ports: u32,
    own: u64,
    port: Port,
    label: u64,
)
    requires { LooksAtPort ports operation.old }
    ensures { operation_as G.parts_of operation.new ≡ after_label_by ports own port label
        (operation_as G.parts_of operation.old) }
{
    weigh(operation, port, label);
    pass(operation, ports, own);
}
