//! A push-relabel run over a net of its own, in which the caller names each step or has it picked. Once no
//! block has excess or an operation it gives a maximum flow.

ghost use Rattle.std.specs.Prelude.{◌≡◌, ◌↔◌, ◌<◌, IsTrue, IfOk, MatchOption, MatchResult};
ghost use Rattle.machine_law.specs.declared.operations.Operation.TheVariants.{Idle};
ghost use Rattle.machine_law.specs.States.{IsQuiet};
ghost use Rattle.machine_law.specs.Steps.{next_event};
ghost use Rattle.async_step.specs.Answers.{saw_as};
ghost use Rattle.boards.specs.Boards.{shown_state, blocks_of_board, IsBoard, IsOpened, HasStepped, HasRefused, HasSettled};
ghost use Rattle.boards.specs.Turns.{IsPicked, IsUnserved, IsBlockDue, HasNoneDue, IsStepOf, IsTurn};

use crate::turn::{End, Turn};
use async_step::{Event, Saw, State, StepRefusal};
use closure_net::{Flow, Net};
use ordered_group::OrderedGroup;
use std::alloc::{AllocError, Global};
use std::marker::Model;

/// A net and a state of the machine over it, with a mark where the run can't go on.
#[derive(Drop)]
pub struct Board<G: OrderedGroup> {
    net: Net<G>,
    state: State<G>,
    stuck: bool,
}

impl<G: OrderedGroup> Model for Board<G> {
    ghost use Rattle.boards.specs.Boards.{BoardView, board_view, IsBoard};

    ghost Value = { BoardView };

    ghost view = { λ b. board_view b.net b.state b.stuck };

    ghost invariant = { λ b. IsBoard (board_view b.net b.state b.stuck) };
}

impl<G: OrderedGroup> Board<G> {
    /// A board over a copy of a net, in the state in which the machine opens.
    ///
    /// # Errors
    /// Want of memory.
    pub fn open(alloc: Global, net: &Net<G>) -> Result<Board<G>, AllocError>
        ensures { IfOk result (λ board. IsOpened net.now board) }
    {
        let net = net.copy(alloc)?;
        let state = State::open(alloc, &net)?;
        Ok(Board {
            net,
            state,
            stuck: false,
        })
    }

    /// How many blocks its net has.
    pub fn len(&self) -> u32
        ensures is { result ≡ blocks_of_board self.now }
        ensures board { IsBoard self.now }
    {
        self.net.len()
    }

    /// Whether its net has the same pairs and the same worths as another. Linear in their sizes.
    pub fn is_over(&self, net: &Net<G>) -> bool
        ensures { IsTrue result ↔ (self.now.net ≡ net.now) }
    {
        self.net.same_as(net)
    }

    /// How many steps were made.
    pub fn count(&self) -> u64
        ensures { result ≡ (shown_state self.now).steps }
    {
        self.state.count()
    }

    /// Whether no block has excess or an operation. In constant time.
    pub fn quiet(&self) -> bool
        ensures { IsTrue result ↔ IsQuiet self.now.net (shown_state self.now) }
    {
        self.state.quiet()
    }

    /// Whether block b has an operation.
    pub fn has_operation(&self, b: u32) -> bool
        requires { b < blocks_of_board self.now }
        ensures { IsTrue result ↔ ¬ ((shown_state self.now).operation b ≡ Idle) }
    {
        self.state.has_operation(b)
    }

    /// Makes one step, and answers what it saw, moved or raised. A refused step changes nothing.
    ///
    /// # Errors
    /// Those of `State::step`, in its order.
    pub fn step(&mut self, event: Event) -> Result<Saw<G>, StepRefusal>
        ensures { MatchResult result
            (λ saw. HasStepped self.old event self.new (saw_as G.parts_of saw))
            (λ e. HasRefused self.old event self.new e) }
    {
        self.state.step(&self.net, event)
    }

    // The block that a turn serves.
    fn picked(&self, own: Option<u32>, from: u32) -> Option<u32>
        ensures { MatchOption result (IsUnserved self.now own) (λ b. IsPicked self.now own from b) }
    {
        match own {
            Some(block) if block < self.net.len() && self.state.has_operation(block) => Some(block),
            _ => self.state.waiting(from),
        }
    }

    // The block that is due, or what a turn answers where none is.
    pub(crate) fn due(&self, own: Option<u32>, from: u32, steps: u64) -> Result<u32, Turn>
        ensures due { MatchResult result
            (λ b. IsBlockDue self.now own from steps b)
            (λ turn. HasNoneDue self.now own steps turn) }
        ensures board { IsBoard self.now }
    {
        if self.state.quiet() {
            return Err(Turn::Ended(End::Quiet));
        }
        if self.stuck {
            return Err(Turn::Ended(End::Stuck));
        }
        if self.state.count() >= steps {
            return Err(Turn::Ended(End::Limit));
        }
        self.picked(own, from).ok_or(Turn::Idle)
    }

    // The event of the step that is next for a block.
    pub(crate) fn next_event(&self, block: u32) -> Event
        requires { block < blocks_of_board self.now }
        ensures { result ≡ next_event self.now.net (shown_state self.now) block }
    {
        Event {
            block,
            kind: self.state.next_kind(&self.net, block),
        }
    }

    // The step that is next for a block, if it can be made.
    pub(crate) fn serve(&mut self, block: u32) -> Turn
        requires { block < blocks_of_board self.old }
        ensures turn { IsStepOf self.old block self.new result }
        ensures board { IsBoard self.new }
    {
        match self.state.next_step(&self.net, block) {
            Ok(_) => Turn::Stepped {
                block,
                more: self.state.has_operation(block),
            },
            Err(StepRefusal::TooManySteps) => Turn::Ended(End::Limit),
            Err(StepRefusal::TooLarge) => {
                self.stuck = true;
                Turn::Ended(End::Stuck)
            }
            Err(_) => unreachable!("a step that is next is in its turn"),
        }
    }

    /// A turn at the board: the one step that is next for `own`, where that block has an operation,
    /// and else for the first block at or after `from`, going round, that has excess and no
    /// operation. A block after the last counts as none for `own`, and as 0 for `from`.
    ///
    /// Answers the first of these that stands: that the run is quiet; that it is stuck; that it made
    /// at least `steps` steps; that there is no block to serve. A step that would lead to a number
    /// beyond its type isn't made and marks the board as stuck. The limit is answered too where 2^40
    /// steps were made, for no more are counted. A turn that made no step leaves the state.
    pub fn turn(&mut self, own: Option<u32>, from: u32, steps: u64) -> Turn
        ensures turn { IsTurn self.old own from steps self.new result }
        ensures board { IsBoard self.new }
    {
        match self.due(own, from, steps) {
            Ok(block) => self.serve(block),
            Err(turn) => turn,
        }
    }

    /// The net and the flow of a quiet board: a greatest flow of that net, in which what the source
    /// reaches is closed, tight and a greatest closed set.
    ///
    /// # Errors
    /// The board itself where it isn't quiet.
    pub fn settle(self) -> Result<(Net<G>, Flow<G>), Board<G>>
        ensures { MatchResult result
            (λ settled. HasSettled self settled.0 settled.1)
            (λ board. (board ≡ self) × ¬ (IsQuiet self.net (shown_state self))) }
    {
        let Board { net, state, stuck } = self;
        // proof: in a `Net` the pairs are in order and the sums of the worths fit
        let _worths = net.worths();
        match state.into_flow(&net) {
            Ok(flow) => Ok((net, flow)),
            Err(state) => Err(Board { net, state, stuck }),
        }
    }
}
