//! One step, of any kind: the operation of a block says which step is its next one.
//!
//! | Operation | Kind of step | Made by | In |
//! |---|---|---|---|
//! | `Idle` | `ReadExcess` | `read_excess` | `reading.rt` |
//! | `Scan`, the capacity of the port is to be read | `ReadCapacity` | `scan`, `read_capacity` | `reading.rt` |
//! | `Scan`, it was read, or the port is forward | `ReadLabel` | `scan`, `read_label` | `reading.rt` |
//! | `PushDue`, the port is forward | `GiveCapacity` | `move_capacity`, `move_forward` | `pushing.rt` |
//! | `PushDue`, the port is another | `TakeCapacity` | `move_capacity`, `move_back`, `move_to_sink`, `move_to_source` | `pushing.rt` |
//! | `TakeDue` | `TakeExcess` | `take_excess` | `pushing.rt` |
//! | `GiveDue` | `GiveExcess` | `give_excess` | `pushing.rt` |
//! | `RaiseDue` | `RaiseLabel` | `raise_label` | `pushing.rt` |
//!
//! What a block does after a read is in `operations.rt`; the numbers of the state are written in `state.rt`.

ghost use Rattle.std.specs.Prelude.{◌≡◌, ◌<◌, length, MatchResult};
ghost use Rattle.machine_law.specs.Steps.{next_kind, advance, next_event};
ghost use Rattle.async_step.specs.Views.{state_of};
ghost use Rattle.async_step.specs.Answers.{IsStateOf, LeadsTelling, IsStepTaken, IsStepRefused, saw_as, answer};

use crate::operations::{push_kind, read_kind};
use crate::refusals::StepRefusal;
use crate::saw::Saw;
use crate::state::State;
use closure_net::Net;
use machine_law::{Event, Kind, Operation};
use ordered_group::OrderedGroup;

impl<G: OrderedGroup> State<G> {
    /// The kind of the step that is next for block b.
    pub fn next_kind(&self, net: &Net<G>, b: u32) -> Kind
        requires over { IsStateOf net.now self.now }
        requires block { b < length net.now.worths }
        ensures { result ≡ next_kind net.now (state_of self.now) b }
    {
        match self.present(b) {
            Operation::Idle => Kind::ReadExcess,
            Operation::Scan {
                have: _,
                place,
                read,
                best: _,
            } => match read {
                Some(_capacity) => Kind::ReadLabel,
                None => read_kind(net.port(b, *place)),
            },
            Operation::PushDue { have: _, best } => push_kind(best.port),
            Operation::TakeDue { amount: _, port: _ } => Kind::TakeExcess,
            Operation::GiveDue { amount: _, port: _ } => Kind::GiveExcess,
            Operation::RaiseDue { have: _, best: _ } => Kind::RaiseLabel,
        }
    }

    // The step that is next for a block, whatever its kind.
    fn advance(&mut self, net: &Net<G>, block: u32) -> Result<Saw<G>, StepRefusal>
        requires over { IsStateOf net.now self.old }
        requires block { block < length net.now.worths }
        ensures { let s = state_of self.old in LeadsTelling G.parts_of net.now self.old
            (advance net.now s block) (answer net.now s block) self.new result }
    {
        match self.present(block) {
            Operation::Idle => self.read_excess(net, block),
            Operation::Scan {
                have: _,
                place,
                read,
                best: _,
            } => {
                let (place, is_read) = (*place, read.is_some());
                self.scan(net, block, place, is_read)
            }
            Operation::PushDue { have, best } => {
                let (have, best) = (*have, *best);
                self.move_capacity(net, block, have, best)
            }
            Operation::TakeDue { amount, port } => {
                let (amount, port) = (*amount, *port);
                self.take_excess(net, block, amount, port)
            }
            Operation::GiveDue { amount, port } => {
                let (amount, port) = (*amount, *port);
                self.give_excess(net, block, amount, port)
            }
            Operation::RaiseDue { have: _, best } => {
                let best = *best;
                self.raise_label(net, block, best)
            }
        }
    }

    /// Makes the step that is next for block b, whatever its kind, and answers what it saw, moved or
    /// raised. A refused step changes nothing.
    ///
    /// # Errors
    /// The first of these that stands: `TooLarge` where a number of the state after the step would
    /// overflow its type; `TooManySteps` where 2^40 steps were made.
    pub fn next_step(&mut self, net: &Net<G>, b: u32) -> Result<Saw<G>, StepRefusal>
        requires over { IsStateOf net.now self.old }
        requires block { b < length net.now.worths }
        ensures made { MatchResult result
            (λ saw. IsStepTaken net.now self.old (next_event net.now (state_of self.old) b) self.new
            (saw_as G.parts_of saw))
            (λ e. IsStepRefused net.now self.old
            (next_event net.now (state_of self.old) b) self.new e) }
        ensures state { IsStateOf net.now self.new }
    {
        self.advance(net, b)
    }

    /// Makes one step, and answers what it saw, moved or raised. A refused step changes nothing.
    ///
    /// # Errors
    /// The first of these that stands: `NoSuchBlock` for a block that the net hasn't; `OutOfTurn`
    /// where the block's next step is of another kind, with that kind; `TooLarge` where a number of
    /// the state after the step would overflow its type; `TooManySteps` where 2^40 steps were made.
    pub fn step(&mut self, net: &Net<G>, event: Event) -> Result<Saw<G>, StepRefusal>
        requires { IsStateOf net.now self.old }
        ensures made { MatchResult result
            (λ saw. IsStepTaken net.now self.old event self.new (saw_as G.parts_of saw))
            (λ e. IsStepRefused net.now self.old event self.new e) }
        ensures state { IsStateOf net.now self.new }
    {
        if event.block >= self.len() {
            return Err(StepRefusal::NoSuchBlock);
        }
        let next = self.next_kind(net, event.block);
        if next != event.kind {
            return Err(StepRefusal::OutOfTurn(next));
        }
        self.advance(net, event.block)
    }
}
