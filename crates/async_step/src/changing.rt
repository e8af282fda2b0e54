//! Ends a step: changes the one number that the step writes, gives the block its next operation and counts the step.
//! Refuses the step where no more of them may be counted.

ghost use Rattle.std.specs.Prelude.{◌≡◌, ◌<◌, length};
ghost use Rattle.machine_law.specs.Operations.{operation_as};
ghost use Rattle.machine_law.specs.Steps.{with_operation};
ghost use Rattle.async_step.specs.Views.{state_of};
ghost use Rattle.async_step.specs.Answers.{IsStateOf, Leads};
ghost use Rattle.async_step.specs.Changes.{CanChange, change_as, after_change, lists_after_change};

use crate::refusals::StepRefusal;
use crate::state::State;
use closure_net::Net;
use machine_law::Operation;
use ordered_group::OrderedGroup;

/// What a step changes beside its block's operation and the count of steps.
#[derive(Clone, Copy)]
pub enum Change<N> {
    /// Nothing: it only reads.
    Nothing,
    /// The excess of a block.
    Excess(u32, N),
    /// The label of its own block.
    Label(u64),
    /// What its own block has of the source.
    Source(N),
    /// What its own block gave the sink.
    Sink(N),
    /// The flow of a pair.
    Flow(u32, N),
    /// What has arrived at the source.
    AtSource(N),
    /// What has arrived at the sink.
    AtSink(N),
}

impl<G: OrderedGroup> State<G> {
    // The number becomes what it is said to become.
    fn change(&mut self, _net: &Net<G>, b: u32, change: Change<G>)
        requires over { IsStateOf _net.now self.old }
        requires block { b < length _net.now.worths }
        requires can { CanChange _net.now b (change_as G.parts_of change) }
        ensures { self.new ≡ lists_after_change self.old b (change_as G.parts_of change) }
    {
        match change {
            Change::Nothing => {}
            Change::Excess(at, amount) => self.set_excess(at, amount),
            Change::Label(label) => self.set_label(b, label),
            Change::Source(amount) => self.set_source(b, amount),
            Change::Sink(amount) => self.set_sink(b, amount),
            Change::Flow(pair, amount) => self.set_flow(pair, amount),
            Change::AtSource(amount) => self.set_at_source(amount),
            Change::AtSink(amount) => self.set_at_sink(amount),
        }
    }

    /// The step is made: a number changes, and the block goes on with this operation.
    pub(crate) fn make_step(
        &mut self,
        net: &Net<G>,
        b: u32,
        change: Change<G>,
        operation: Operation<G>,
    ) -> Result<(), StepRefusal>
        requires over { IsStateOf net.now self.old }
        requires block { b < length net.now.worths }
        requires can { CanChange net.now b (change_as G.parts_of change) }
        ensures { Leads net.now self.old
            (after_change (with_operation (state_of self.old) b (operation_as G.parts_of operation))
            b (change_as G.parts_of change)) self.new result }
    {
        // proof: the lists of a state are as long as its blocks
        let _sized = self.len();
        if self.is_full() {
            return Err(StepRefusal::TooManySteps);
        }
        self.change(net, b, change);
        self.go_on(b, operation);
        Ok(())
    }
}
