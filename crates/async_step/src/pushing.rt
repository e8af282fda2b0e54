//! Makes the steps of a push, which change an arc's flow and the excess at its two ends, and the step that raises a
//! block's label. A step after which a number wouldn't fit is refused.

ghost use Rattle.std.specs.Prelude.{◌+◌, ◌<◌, length};
ghost use Rattle.ordered_group.specs.Amount.{plus};
ghost use Rattle.closure_net.specs.declared.port.PortKind.TheVariants.{Sink, Forward, Backward, Source};
ghost use Rattle.machine_law.specs.declared.operations.Operation.TheVariants.{Idle};
ghost use Rattle.machine_law.specs.Operations.{best_as};
ghost use Rattle.machine_law.specs.Residual.{IsPortOf};
ghost use Rattle.machine_law.specs.States.{with_value_at};
ghost use Rattle.machine_law.specs.Steps.{with_operation, after_push, after_push_by, after_take, after_give, after_raise, push_amount};
ghost use Rattle.async_step.specs.Views.{state_of};
ghost use Rattle.async_step.specs.Answers.{IsStateOf, Leads, LeadsTelling};
ghost use Rattle.async_step.specs.declared.saw.Saw.TheVariants.{Moved, Raised};

use crate::changing::Change;
use crate::operations::push_amount;
use crate::refusals::{Made, Seen, StepRefusal};
use crate::saw::Saw;
use crate::state::State;
use closure_net::{Net, Port, PortKind};
use machine_law::{Best, Operation};
use ordered_group::OrderedGroup;

impl<G: OrderedGroup> State<G> {
    // Over the port to the sink.
    fn move_to_sink(&mut self, net: &Net<G>, block: u32, amount: G, port: Port) -> Made
        requires over { IsStateOf net.now self.old }
        requires block { block < length net.now.worths }
        ensures { let s = state_of self.old in Leads net.now self.old
            (after_push_by s block (G.parts_of amount) port Sink) self.new result }
    {
        let more = self
            .sink(block)
            .try_add(amount)
            .ok_or(StepRefusal::TooLarge)?;
        let _room = net
            .negative(block)
            .try_sub(more)
            .ok_or(StepRefusal::TooLarge)?;
        let next = Operation::TakeDue { amount, port };
        self.make_step(net, block, Change::Sink(more), next)
    }

    // Over a forward port: the flow of its pair rises.
    fn move_forward(&mut self, net: &Net<G>, block: u32, amount: G, port: Port) -> Made
        requires over { IsStateOf net.now self.old }
        requires block { block < length net.now.worths }
        requires slot { port.slot < length net.now.pairs }
        ensures { let s = state_of self.old in Leads net.now self.old
            (after_push_by s block (G.parts_of amount) port Forward) self.new result }
    {
        let more = self
            .flow(port.slot)
            .try_add(amount)
            .ok_or(StepRefusal::TooLarge)?;
        let next = Operation::TakeDue { amount, port };
        self.make_step(net, block, Change::Flow(port.slot, more), next)
    }

    // Over a backward port: the flow of its pair falls.
    fn move_back(&mut self, net: &Net<G>, block: u32, amount: G, port: Port) -> Made
        requires over { IsStateOf net.now self.old }
        requires block { block < length net.now.worths }
        requires slot { port.slot < length net.now.pairs }
        ensures { let s = state_of self.old in Leads net.now self.old
            (after_push_by s block (G.parts_of amount) port Backward) self.new result }
    {
        let less = self
            .flow(port.slot)
            .try_sub(amount)
            .ok_or(StepRefusal::TooLarge)?;
        let next = Operation::TakeDue { amount, port };
        self.make_step(net, block, Change::Flow(port.slot, less), next)
    }

    // Back to the source.
    fn move_to_source(&mut self, net: &Net<G>, block: u32, amount: G, port: Port) -> Made
        requires over { IsStateOf net.now self.old }
        requires block { block < length net.now.worths }
        ensures { let s = state_of self.old in Leads net.now self.old
            (after_push_by s block (G.parts_of amount) port Source) self.new result }
    {
        let less = self
            .source(block)
            .try_sub(amount)
            .ok_or(StepRefusal::TooLarge)?;
        let next = Operation::TakeDue { amount, port };
        self.make_step(net, block, Change::Source(less), next)
    }

    // The capacity step of a push of an amount over a port.
    fn push(&mut self, net: &Net<G>, block: u32, amount: G, port: Port) -> Made
        requires over { IsStateOf net.now self.old }
        requires block { block < length net.now.worths }
        requires port { IsPortOf net.now block port }
        ensures { let s = state_of self.old in
            Leads net.now self.old (after_push s block (G.parts_of amount) port) self.new result }
    {
        match port.kind {
            PortKind::Sink => self.move_to_sink(net, block, amount, port),
            PortKind::Forward => self.move_forward(net, block, amount, port),
            PortKind::Backward => self.move_back(net, block, amount, port),
            PortKind::Source => self.move_to_source(net, block, amount, port),
        }
    }

    /// The capacity step of a push that is due.
    pub(crate) fn move_capacity(
        &mut self,
        net: &Net<G>,
        block: u32,
        have: G,
        best: Best<G>,
    ) -> Seen<G>
        requires over { IsStateOf net.now self.old }
        requires block { block < length net.now.worths }
        requires port { IsPortOf net.now block best.port }
        ensures { let s = state_of self.old in
            let d = push_amount (G.parts_of have) best.port.kind (G.parts_of best.capacity) in
            LeadsTelling G.parts_of net.now self.old
            (after_push s block d best.port) (Moved d) self.new result }
    {
        let amount = push_amount(have, best.port, best.capacity);
        self.push(net, block, amount, best.port)?;
        Ok(Saw::Moved(amount))
    }

    /// A push takes its amount from its own block's excess.
    pub(crate) fn take_excess(&mut self, net: &Net<G>, block: u32, amount: G, port: Port) -> Seen<G>
        requires over { IsStateOf net.now self.old }
        requires block { block < length net.now.worths }
        ensures { let s = state_of self.old in LeadsTelling G.parts_of net.now self.old
            (after_take s block (G.parts_of amount) port) (Moved (G.parts_of amount))
            self.new result }
    {
        let less = self
            .excess(block)
            .try_sub(amount)
            .ok_or(StepRefusal::TooLarge)?;
        let next = Operation::GiveDue { amount, port };
        self.make_step(net, block, Change::Excess(block, less), next)?;
        Ok(Saw::Moved(amount))
    }

    // At the sink.
    fn arrive_at_sink(&mut self, net: &Net<G>, block: u32, amount: G) -> Made
        requires over { IsStateOf net.now self.old }
        requires block { block < length net.now.worths }
        ensures { let s = state_of self.old in Leads net.now self.old
            (record (with_operation s block Idle) { at_sink = plus s.at_sink (G.parts_of amount) })
            self.new result }
    {
        let more = self.at_sink().try_add(amount).ok_or(StepRefusal::TooLarge)?;
        self.make_step(net, block, Change::AtSink(more), Operation::Idle)
    }

    // At the source.
    fn arrive_at_source(&mut self, net: &Net<G>, block: u32, amount: G) -> Made
        requires over { IsStateOf net.now self.old }
        requires block { block < length net.now.worths }
        ensures { let s = state_of self.old in Leads net.now self.old
            (record (with_operation s block Idle)
            { at_source = plus s.at_source (G.parts_of amount) }) self.new result }
    {
        let more = self
            .at_source()
            .try_add(amount)
            .ok_or(StepRefusal::TooLarge)?;
        self.make_step(net, block, Change::AtSource(more), Operation::Idle)
    }

    // At another block.
    fn arrive_at_block(&mut self, net: &Net<G>, block: u32, amount: G, other: u32) -> Made
        requires over { IsStateOf net.now self.old }
        requires block { block < length net.now.worths }
        requires other { other < length net.now.worths }
        ensures { let s = state_of self.old in Leads net.now self.old
            (record
            (with_operation s block Idle) {
              excess = with_value_at s.excess other
                  (plus (s.excess other) (G.parts_of amount));
            }) self.new result }
    {
        let more = self
            .excess(other)
            .try_add(amount)
            .ok_or(StepRefusal::TooLarge)?;
        self.make_step(net, block, Change::Excess(other, more), Operation::Idle)
    }

    // The last step of a push of an amount over a port.
    fn give(&mut self, net: &Net<G>, block: u32, amount: G, port: Port) -> Made
        requires over { IsStateOf net.now self.old }
        requires block { block < length net.now.worths }
        requires port { IsPortOf net.now block port }
        ensures { let s = state_of self.old in
            Leads net.now self.old (after_give s block (G.parts_of amount) port) self.new result }
    {
        let rests = net.rests();
        // proof: there are at most `MOST_BLOCKS` blocks and `MOST_PAIRS` pairs
        let _few = rests.len();
        match port.kind {
            PortKind::Sink => self.arrive_at_sink(net, block, amount),
            PortKind::Forward => self.arrive_at_block(net, block, amount, port.other),
            PortKind::Backward => self.arrive_at_block(net, block, amount, port.other),
            PortKind::Source => self.arrive_at_source(net, block, amount),
        }
    }

    /// A push gives its amount to the other end.
    pub(crate) fn give_excess(&mut self, net: &Net<G>, block: u32, amount: G, port: Port) -> Seen<G>
        requires over { IsStateOf net.now self.old }
        requires block { block < length net.now.worths }
        requires port { IsPortOf net.now block port }
        ensures { let s = state_of self.old in LeadsTelling G.parts_of net.now self.old
            (after_give s block (G.parts_of amount) port) (Moved (G.parts_of amount))
            self.new result }
    {
        self.give(net, block, amount, port)?;
        Ok(Saw::Moved(amount))
    }

    /// A block raises its label above the best port's.
    pub(crate) fn raise_label(&mut self, net: &Net<G>, block: u32, best: Best<G>) -> Seen<G>
        requires over { IsStateOf net.now self.old }
        requires block { block < length net.now.worths }
        ensures { let s = state_of self.old in LeadsTelling G.parts_of net.now self.old
            (after_raise s block (best_as G.parts_of best)) (Raised (best.label + 1))
            self.new result }
    {
        let label = best.label.checked_add(1).ok_or(StepRefusal::TooLarge)?;
        self.make_step(net, block, Change::Label(label), Operation::Idle)?;
        Ok(Saw::Raised(label))
    }
}
