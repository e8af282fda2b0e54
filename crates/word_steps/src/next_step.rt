//! Tells the kind of a block's next step by its operation, and whether by that step a label or another word
//! becomes too large.

ghost use Rattle.std.specs.Prelude.{◌≡◌, ◌<◌, IsTrue, length, ◌↔◌};
ghost use Rattle.machine_law.specs.Operations.{is_idle as is_free, operation_as};
ghost use Rattle.machine_law.specs.Steps.{next_of};
ghost use Rattle.word_steps.specs.Layout.{units};
ghost use Rattle.word_steps.specs.Turns.{IsPlaced, stopped_after, RaisesTooFar};

use closure_net::{Net, PortKind};
use machine_law::{Kind, Operation};
use ordered_group::Scaled;

// The greatest number that a word may have.
const MOST: u64 = 9_223_372_036_854_775_807;

/// Whether there is no operation.
pub fn is_idle(operation: &Operation<u64>) -> bool
    ensures { result ≡ is_free operation.now }
{
    match *operation {
        Operation::Idle => true,
        Operation::Scan {
            have: _,
            place: _,
            read: _,
            best: _,
        } => false,
        Operation::PushDue { have: _, best: _ } => false,
        Operation::TakeDue { amount: _, port: _ } => false,
        Operation::GiveDue { amount: _, port: _ } => false,
        Operation::RaiseDue { have: _, best: _ } => false,
    }
}

/// Whether the next step would raise a label to 2^63 or more.
pub fn raises_too_far(operation: &Operation<u64>) -> bool
    ensures { IsTrue result ↔ RaisesTooFar operation.now }
{
    match *operation {
        Operation::RaiseDue { have: _, best } => best.label >= MOST,
        _ => false,
    }
}

/// Whether the word that the step adds to, which was x, has come to 2^63 or more by it.
pub fn is_overfull(operation: &Operation<u64>, x: u64) -> bool
    ensures { result ≡ stopped_after operation.now x }
{
    match *operation {
        Operation::PushDue { have, best } => match best.port.kind {
            PortKind::Sink => false,
            PortKind::Forward => x > MOST || have > MOST - x,
            PortKind::Backward => false,
            PortKind::Source => false,
        },
        Operation::Idle => false,
        Operation::Scan {
            have: _,
            place: _,
            read: _,
            best: _,
        } => false,
        Operation::TakeDue { amount: _, port: _ } => false,
        Operation::GiveDue { amount: _, port: _ } => false,
        Operation::RaiseDue { have: _, best: _ } => false,
    }
}

/// The kind of the step that is next for block b.
pub fn next_kind(net: &Net<Scaled>, b: u32, operation: &Operation<u64>) -> Kind
    requires known { b < length net.now.worths }
    requires placed { IsPlaced net.now b operation.now }
    ensures { result ≡ next_of net.now b (operation_as units operation.now) }
{
    match *operation {
        Operation::Idle => Kind::ReadExcess,
        Operation::Scan {
            have: _,
            place,
            read,
            best: _,
        } => match read {
            None => {
                let port = net.port(b, place);
                match port.kind {
                    PortKind::Sink => Kind::ReadCapacity,
                    PortKind::Forward => Kind::ReadLabel,
                    PortKind::Backward => Kind::ReadCapacity,
                    PortKind::Source => Kind::ReadCapacity,
                }
            }
            Some(_) => Kind::ReadLabel,
        },
        Operation::PushDue { have: _, best } => match best.port.kind {
            PortKind::Sink => Kind::TakeCapacity,
            PortKind::Forward => Kind::GiveCapacity,
            PortKind::Backward => Kind::TakeCapacity,
            PortKind::Source => Kind::TakeCapacity,
        },
        Operation::TakeDue { amount: _, port: _ } => Kind::TakeExcess,
        Operation::GiveDue { amount: _, port: _ } => Kind::GiveExcess,
        Operation::RaiseDue { have: _, best: _ } => Kind::RaiseLabel,
    }
}
