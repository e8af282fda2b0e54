//! The state of a push-relabel run over a net: excess, label and operation of each block, and the flow. Once no block
//! has excess or an operation it gives a maximum flow.

ghost use Rattle.std.specs.Prelude.{◌≡◌, ◌↔◌, ℕ, ◌+◌, ◌<◌, ◌≤◌, IsTrue, IfOk, MatchOption, MatchResult, length, slice_set};
ghost use Rattle.closure_net.specs.Network.{NetView};
ghost use Rattle.machine_law.specs.Operations.{operation_as};
ghost use Rattle.machine_law.specs.declared.operations.Operation.TheVariants.{Idle};
ghost use Rattle.machine_law.specs.States.{opening, IsQuiet};
ghost use Rattle.machine_law.specs.Quiet.{IsFlowOf};
ghost use Rattle.async_step.specs.Marks.{IsFirstRound};
ghost use Rattle.async_step.specs.Views.{StateView, state_of, IsSized};
ghost use Rattle.async_step.specs.Scans.{after_capacity_by, after_label_by};
ghost use Rattle.machine_law.specs.Reads.{LooksAtPort};
ghost use Rattle.async_step.specs.Answers.{IsStateOf, IsWaiting};

use crate::limits::MOST_STEPS;
use crate::marks::Marks;
use crate::opening::{busy_marks, idle_operations, positives, waiting_marks};
use crate::operations::{choose, see};
use crate::predicates::{is_busy, is_idle, is_positive, is_waiting};
use closure_net::{Carried, Flow, Net, Port};
use machine_law::Operation;
use ordered_group::{OrderedGroup, is_zero, zeros};
use std::alloc::{AllocError, Global};
use std::marker::Model;

/// The state of the machine over a net: for each block its excess, its label, what it has of the
/// source, what it gave the sink and its operation, and for each pair its flow.
#[derive(Drop)]
pub struct State<G: OrderedGroup> {
    excess: Vec<G>,
    label: Vec<u64>,
    source: Vec<G>,
    sink: Vec<G>,
    flow: Vec<G>,
    operation: Vec<Operation<G>>,
    at_source: G,
    at_sink: G,
    steps: u64,
    // the blocks that have excess and no operation
    waiting: Marks,
    // the blocks that have excess or an operation
    busy: Marks,
}

impl<G: OrderedGroup> Model for State<G> {
    ghost use Rattle.async_step.specs.Views.{StateView};

    ghost Value = { StateView };

    ghost use Rattle.async_step.specs.Views.{view_of, IsState};

    ghost view = { λ s. view_of G.parts_of s.excess.items s.label.items s.source.items s.sink.items
        s.flow.items s.operation.items s.at_source s.at_sink s.steps };

    ghost invariant = { λ s. IsState
        (view_of G.parts_of s.excess.items s.label.items s.source.items s.sink.items
        s.flow.items s.operation.items s.at_source s.at_sink s.steps) s.waiting s.busy };
}

impl<G: OrderedGroup> State<G> {
    /// The state in which the machine opens: each block's excess, and what it has of the source, is
    /// its worth where that is positive, and all else is zero.
    ///
    /// # Errors
    /// Want of memory.
    pub fn open(alloc: Global, net: &Net<G>) -> Result<State<G>, AllocError>
        ensures opening { IfOk result (λ s. state_of s ≡ opening net.now) }
        ensures state { IfOk result (λ s. IsStateOf net.now s) }
    {
        let blocks = net.worths().len() as u32;
        let rests = net.rests();
        // proof: there are at most `MOST_BLOCKS` blocks and `MOST_PAIRS` pairs
        let _few = rests.len();
        let pairs = rests.pairs();
        let excess = positives(alloc, net)?;
        let source = positives(alloc, net)?;
        let sink = zeros(alloc, blocks)?;
        let flow = zeros(alloc, pairs)?;
        let operation = idle_operations(alloc, blocks)?;
        let label = vec![in alloc; 0; blocks as usize]?;
        let waiting = waiting_marks(alloc, &excess)?;
        let busy = busy_marks(alloc, &excess)?;
        Ok(State {
            excess,
            label,
            source,
            sink,
            flow,
            operation,
            at_source: G::zero(),
            at_sink: G::zero(),
            steps: 0,
            waiting,
            busy,
        })
    }

    /// How many blocks there are.
    pub fn len(&self) -> u32
        ensures is { result ≡ length self.now.operation }
        ensures sized { IsSized self.now }
    {
        self.operation.len() as u32
    }

    /// The excess of block b.
    pub fn excess(&self, b: u32) -> G
        requires { b < length self.now.operation }
        ensures { G.parts_of result ≡ (state_of self.now).excess b }
    {
        self.excess[b as usize]
    }

    /// The label of block b.
    pub fn label(&self, b: u32) -> u64
        requires { b < length self.now.operation }
        ensures { result ≡ (state_of self.now).label b }
    {
        self.label[b as usize]
    }

    /// What block b has of the source.
    pub fn source(&self, b: u32) -> G
        requires { b < length self.now.operation }
        ensures { G.parts_of result ≡ (state_of self.now).source b }
    {
        self.source[b as usize]
    }

    /// What block b gave the sink.
    pub fn sink(&self, b: u32) -> G
        requires { b < length self.now.operation }
        ensures { G.parts_of result ≡ (state_of self.now).sink b }
    {
        self.sink[b as usize]
    }

    /// What pair k carries.
    pub fn flow(&self, k: u32) -> G
        requires { k < length self.now.flow }
        ensures { G.parts_of result ≡ (state_of self.now).flow k }
    {
        self.flow[k as usize]
    }

    /// The operation of block b.
    pub fn operation(&self, b: u32) -> Operation<G>
        requires { b < length self.now.operation }
        ensures { operation_as G.parts_of result ≡ (state_of self.now).operation b }
    {
        *self.present(b)
    }

    /// The operation of block b, in its place.
    pub(crate) fn present(&self, b: u32) -> &Operation<G>
        requires { b < length self.now.operation }
        ensures { operation_as G.parts_of result.now ≡ (state_of self.now).operation b }
    {
        &self.operation[b as usize]
    }

    /// Whether block b has an operation.
    pub fn has_operation(&self, b: u32) -> bool
        requires { b < length self.now.operation }
        ensures { IsTrue result ↔ ¬ ((state_of self.now).operation b ≡ Idle) }
    {
        let at = b as usize;
        !matches!(self.operation[at], Operation::Idle)
    }

    /// What has arrived back at the source.
    pub fn at_source(&self) -> G
        ensures { G.parts_of result ≡ self.now.at_source }
    {
        self.at_source
    }

    /// What has arrived at the sink.
    pub fn at_sink(&self) -> G
        ensures { G.parts_of result ≡ self.now.at_sink }
    {
        self.at_sink
    }

    /// How many steps were made.
    pub fn count(&self) -> u64
        ensures { result ≡ self.now.steps }
    {
        self.steps
    }

    /// Whether no block has excess or an operation. In constant time.
    pub fn quiet(&self) -> bool
        ensures { (net : NetView) → length net.worths ≡ length self.now.operation
            → (IsTrue result ↔ IsQuiet net (state_of self.now)) }
    {
        self.busy.is_empty()
    }

    /// The first block at or after one, going round, that has excess and no operation. From a block
    /// that there isn't, it is the first of all.
    pub fn waiting(&self, from: u32) -> Option<u32>
        ensures { MatchOption result
            ((b : ℕ) → b < length self.now.operation → ¬ (IsWaiting (state_of self.now) b))
            (λ b. IsFirstRound (IsWaiting (state_of self.now)) (length self.now.operation) from b) }
    {
        self.waiting.first_round(from)
    }

    /// The flow of a quiet state.
    ///
    /// # Errors
    /// The state itself where it isn't quiet.
    pub fn into_flow(self, _net: &Net<G>) -> Result<Flow<G>, State<G>>
        requires { IsStateOf _net.now self }
        ensures { MatchResult result
            (λ flow. IsQuiet _net.now (state_of self) × IsFlowOf _net.now (state_of self) flow)
            (λ state. (state ≡ self) × ¬ (IsQuiet _net.now (state_of self))) }
    {
        // proof: the lists of a state are as long as its blocks
        let _sized = self.len();
        if !self.quiet() {
            return Err(self);
        }
        let State {
            excess: _,
            label: _,
            source,
            sink,
            flow,
            operation: _,
            at_source: _,
            at_sink: _,
            steps: _,
            waiting: _,
            busy: _,
        } = self;
        Ok(Flow::new(
            Carried::from_list(source),
            Carried::from_list(flow),
            Carried::from_list(sink),
        ))
    }

    /// Whether no further step is made.
    pub(crate) fn is_full(&self) -> bool
        ensures { IsTrue result ↔ (MOST_STEPS ≤ self.now.steps) }
    {
        self.steps >= MOST_STEPS
    }

    pub(crate) fn set_excess(&mut self, b: u32, amount: G)
        requires { b < length self.old.operation }
        ensures { self.new
            ≡ record self.old { excess = slice_set self.old.excess b (G.parts_of amount) } }
    {
        let at = b as usize;
        let idle = is_idle(&self.operation[at]);
        self.excess[at] = amount;
        self.waiting.set(b, is_waiting(amount, idle));
        self.busy.set(b, is_busy(amount, idle));
    }

    pub(crate) fn set_label(&mut self, b: u32, label: u64)
        requires { b < length self.old.operation }
        ensures { self.new ≡ record self.old { label = slice_set self.old.label b label } }
    {
        let at = b as usize;
        self.label[at] = label;
    }

    pub(crate) fn set_source(&mut self, b: u32, amount: G)
        requires { b < length self.old.operation }
        ensures { self.new
            ≡ record self.old { source = slice_set self.old.source b (G.parts_of amount) } }
    {
        let at = b as usize;
        self.source[at] = amount;
    }

    pub(crate) fn set_sink(&mut self, b: u32, amount: G)
        requires { b < length self.old.operation }
        ensures { self.new
            ≡ record self.old { sink = slice_set self.old.sink b (G.parts_of amount) } }
    {
        let at = b as usize;
        self.sink[at] = amount;
    }

    pub(crate) fn set_flow(&mut self, k: u32, amount: G)
        requires { k < length self.old.flow }
        ensures { self.new
            ≡ record self.old { flow = slice_set self.old.flow k (G.parts_of amount) } }
    {
        let at = k as usize;
        self.flow[at] = amount;
    }

    pub(crate) fn set_at_source(&mut self, amount: G)
        ensures { self.new ≡ record self.old { at_source = G.parts_of amount } }
    {
        self.at_source = amount;
    }

    pub(crate) fn set_at_sink(&mut self, amount: G)
        ensures { self.new ≡ record self.old { at_sink = G.parts_of amount } }
    {
        self.at_sink = amount;
    }

    // Gives a block its next operation, and counts a step.
    pub(crate) fn go_on(&mut self, b: u32, operation: Operation<G>)
        requires block { b < length self.old.operation }
        requires room { self.old.steps < MOST_STEPS }
        ensures { self.new ≡ record self.old {
          operation = slice_set self.old.operation b (operation_as G.parts_of operation);
          steps = self.old.steps + 1;
        } }
    {
        let at = b as usize;
        let excess = self.excess[at];
        let idle = is_idle(&operation);
        self.operation[at] = operation;
        self.steps += 1;
        self.waiting.set(b, is_waiting(excess, idle));
        self.busy.set(b, is_busy(excess, idle));
    }

    // Gives a block the capacity of the port that it looks at, and counts a step. The operation is
    // changed in its place: to make it anew costs more than the rest of the step.
    pub(crate) fn see_capacity(&mut self, b: u32, ports: u32, capacity: G)
        requires block { b < length self.old.operation }
        requires room { self.old.steps < MOST_STEPS }
        requires scan { LooksAtPort ports ((state_of self.old).operation b) }
        ensures { let s = state_of self.old in self.new ≡ record self.old {
          operation = slice_set self.old.operation b
              (after_capacity_by ports (s.label b) (G.parts_of capacity) (s.operation b));
          steps = self.old.steps + 1;
        } }
    {
        let at = b as usize;
        let label = self.label[at];
        see(&mut self.operation[at], ports, label, capacity);
        self.steps += 1;
        if is_idle(&self.operation[at]) {
            let excess = self.excess[at];
            self.waiting.set(b, is_positive(excess));
            self.busy.set(b, !is_zero(excess));
        }
    }

    // Gives a block the label beyond the port that it looks at, and counts a step. The block had an
    // operation and has one after, so no mark changes.
    pub(crate) fn choose_port(&mut self, b: u32, ports: u32, port: Port, label: u64)
        requires block { b < length self.old.operation }
        requires room { self.old.steps < MOST_STEPS }
        requires scan { LooksAtPort ports ((state_of self.old).operation b) }
        ensures { let s = state_of self.old in self.new ≡ record self.old {
          operation = slice_set self.old.operation b
              (after_label_by ports (s.label b) port label (s.operation b));
          steps = self.old.steps + 1;
        } }
    {
        let at = b as usize;
        let own = self.label[at];
        choose(&mut self.operation[at], ports, own, port, label);
        self.steps += 1;
    }
}
