//! Makes the steps that read: a block's own excess, the residual capacity of an arc, or the label at its other end.
//! Each decides the block's next operation.

ghost use Rattle.std.specs.Prelude.{◌≡◌, ◌<◌, length};
ghost use Rattle.closure_net.specs.Ports.{ports};
ghost use Rattle.machine_law.specs.Reads.{operation_begun_with, LooksAtPort};
ghost use Rattle.machine_law.specs.Residual.{capacity, end_label, IsPortOf};
ghost use Rattle.machine_law.specs.Steps.{with_operation, advance};
ghost use Rattle.async_step.specs.Views.{state_of};
ghost use Rattle.async_step.specs.Scans.{IsScanAt, after_capacity_by, after_label_by, operation_after_look};
ghost use Rattle.async_step.specs.Answers.{IsStateOf, LeadsTelling, answer_by, answer};
ghost use Rattle.async_step.specs.declared.saw.Saw.TheVariants.{Excess, Capacity, Label};

use crate::changing::Change;
use crate::operations::operation_begun_with;
use crate::refusals::{Seen, StepRefusal};
use crate::saw::Saw;
use crate::state::State;
use closure_net::{Net, Port, PortKind};
use ordered_group::OrderedGroup;

impl<G: OrderedGroup> State<G> {
    /// A block reads its own excess.
    pub(crate) fn read_excess(&mut self, net: &Net<G>, block: u32) -> Seen<G>
        requires over { IsStateOf net.now self.old }
        requires block { block < length net.now.worths }
        ensures { let s = state_of self.old in LeadsTelling G.parts_of net.now self.old
            (with_operation s block (operation_begun_with (s.excess block)))
            (Excess (s.excess block)) self.new result }
    {
        let have = self.excess(block);
        self.make_step(net, block, Change::Nothing, operation_begun_with(have))?;
        Ok(Saw::Excess(have))
    }

    /// The capacity of a port of a block.
    pub(crate) fn capacity(&self, net: &Net<G>, block: u32, port: Port) -> G
        requires over { IsStateOf net.now self.now }
        requires block { block < length net.now.worths }
        requires port { IsPortOf net.now block port }
        ensures { G.parts_of result ≡ capacity net.now (state_of self.now) block port }
    {
        match port.kind {
            PortKind::Sink => match net.negative(block).try_sub(self.sink(block)) {
                Some(room) => room,
                None => unreachable!("the room of a block fits"),
            },
            PortKind::Forward => G::zero(),
            PortKind::Backward => self.flow(port.slot),
            PortKind::Source => self.source(block),
        }
    }

    /// A block reads the capacity of the port that it looks at.
    pub(crate) fn read_capacity(&mut self, net: &Net<G>, block: u32, port: Port) -> Seen<G>
        requires over { IsStateOf net.now self.old }
        requires block { block < length net.now.worths }
        requires port { IsPortOf net.now block port }
        requires scan { LooksAtPort
            (length (ports net.now block)) ((state_of self.old).operation block) }
        ensures { let s = state_of self.old in let c = capacity net.now s block port in
            LeadsTelling G.parts_of net.now self.old
            (with_operation s block (after_capacity_by (length (ports net.now block))
            (s.label block) c (s.operation block)))
            (Capacity c) self.new result }
    {
        // proof: the lists of a state are as long as its blocks
        let _sized = self.len();
        if self.is_full() {
            return Err(StepRefusal::TooManySteps);
        }
        let seen = self.capacity(net, block, port);
        self.see_capacity(block, net.ports(block), seen);
        Ok(Saw::Capacity(seen))
    }

    /// The label at the other end of a port of a block.
    pub(crate) fn label_beyond(&self, net: &Net<G>, block: u32, port: Port) -> u64
        requires over { IsStateOf net.now self.now }
        requires block { block < length net.now.worths }
        requires port { IsPortOf net.now block port }
        ensures { result ≡ end_label net.now (state_of self.now) port }
    {
        let rests = net.rests();
        let blocks = rests.len();
        match port.kind {
            PortKind::Sink => 0,
            PortKind::Forward => self.label(port.other),
            PortKind::Backward => self.label(port.other),
            PortKind::Source => blocks as u64 + 2,
        }
    }

    /// A block reads the label at the other end of the port that it looks at.
    pub(crate) fn read_label(&mut self, net: &Net<G>, block: u32, port: Port) -> Seen<G>
        requires over { IsStateOf net.now self.old }
        requires block { block < length net.now.worths }
        requires port { IsPortOf net.now block port }
        requires scan { LooksAtPort
            (length (ports net.now block)) ((state_of self.old).operation block) }
        ensures { let s = state_of self.old in let h = end_label net.now s port in
            LeadsTelling G.parts_of net.now self.old
            (with_operation s block (after_label_by (length (ports net.now block)) (s.label block)
            port h (s.operation block)))
            (Label h) self.new result }
    {
        // proof: the lists of a state are as long as its blocks
        let _sized = self.len();
        if self.is_full() {
            return Err(StepRefusal::TooManySteps);
        }
        let label = self.label_beyond(net, block, port);
        self.choose_port(block, net.ports(block), port, label);
        Ok(Saw::Label(label))
    }

    // At a port whose capacity isn't read: its capacity, or the label beyond a forward one.
    fn look(&mut self, net: &Net<G>, block: u32, port: Port) -> Seen<G>
        requires over { IsStateOf net.now self.old }
        requires block { block < length net.now.worths }
        requires port { IsPortOf net.now block port }
        requires scan { LooksAtPort
            (length (ports net.now block)) ((state_of self.old).operation block) }
        ensures { let s = state_of self.old in LeadsTelling G.parts_of net.now self.old
            (with_operation s block
            (operation_after_look net.now s block port port.kind (s.operation block)))
            (answer_by net.now s block port port.kind) self.new result }
    {
        match port.kind {
            PortKind::Sink => self.read_capacity(net, block, port),
            PortKind::Forward => self.read_label(net, block, port),
            PortKind::Backward => self.read_capacity(net, block, port),
            PortKind::Source => self.read_capacity(net, block, port),
        }
    }

    /// The step of a block that looks at the port at this place, whose capacity is read or not.
    pub(crate) fn scan(&mut self, net: &Net<G>, block: u32, place: u32, is_read: bool) -> Seen<G>
        requires over { IsStateOf net.now self.old }
        requires block { block < length net.now.worths }
        requires scan { IsScanAt place is_read ((state_of self.old).operation block) }
        ensures { let s = state_of self.old in LeadsTelling G.parts_of net.now self.old
            (advance net.now s block) (answer net.now s block) self.new result }
    {
        let port = net.port(block, place);
        if is_read {
            self.read_label(net, block, port)
        } else {
            self.look(net, block, port)
        }
    }
}
