//! The memory of a check that reads line by line. Takes each line's amount into a block's balance or the pit's worth,
//! and tells at the end whether all balances are zero and the pit is tight.

ghost use Rattle.std.specs.Prelude.{◌≡◌, ◌↔◌, ℕ, ◌<◌, ◌≤◌, ◌⊎◌, true, false, IsTrue, pos, List, [], length, IfOk, IsOk, IfErr, IfSome, MatchOption, MatchResult};
ghost use Rattle.ordered_group.specs.Amount.{zero_amount, plus, minus, positive, AtMost, FitsPair};
ghost use Rattle.ordered_group.specs.Sums.{total, amount_at};
ghost use Rattle.prec_file.specs.Rests.{IsFirstNot};
ghost use Rattle.closure_net.specs.Network.{NetView, IsAscending, holds_of};
ghost use Rattle.closure_net.specs.Closure.{IsClosed};
ghost use Rattle.certificate_file.specs.declared.body_lines.LineKind.TheVariants as kind;
ghost use Rattle.certificate_file.specs.declared.body_lines.BodyLine.{BodyLine as LineView};
ghost use Rattle.certificate_file.specs.Certificate.{amount_of};
ghost use Rattle.check_pit.specs.Closing.{IsFirstOpen};
ghost use Rattle.check_pit.specs.LineSums.{keeps_by};
ghost use Rattle.check_pit.specs.Rooms.{AreSumsOf, MayPut, Puts, PutsLine, RefusesLine, with_balance, with_left, IsFirstUnbalanced, TellsTight};

use crate::held_graph::HeldGraph;
use crate::marks::{first_open, mark};
use crate::pit_fault::PitFault;
use crate::pit_list::PitList;
use certificate_file::{BodyLine, LineKind, amount};
use closure_net::{Net, Pit};
use ordered_group::{OrderedGroup, at_most, is_zero, same, zeros};
use std::alloc::{AllocError, Global};
use std::marker::Model;

/// What a check of a stream needs of memory: a balance and a mark for each block, and the list of the pit's blocks. It
/// serves one check after another.
#[derive(Drop)]
pub struct Room<G: OrderedGroup> {
    balances: Vec<G>,
    pit: PitList,
    // a mark for each block, of use to `first_open` alone
    marks: Vec<bool>,
    worth: G,
    left: G,
}

impl<G: OrderedGroup> Model for Room<G> {
    ghost use Rattle.std.specs.Prelude.{◌≡◌, length, map};
    ghost use Rattle.check_pit.specs.Rooms.{RoomView};

    ghost Value = { RoomView };

    ghost view = { λ r. record {
      balances = map G.parts_of r.balances.items;
      blocks = r.pit.blocks;
      space = r.pit.space;
      is_pit = r.pit.is_pit;
      worth = G.parts_of r.worth;
      left = G.parts_of r.left;
    } };

    ghost invariant = { λ r. length r.marks.items ≡ length r.balances.items };
}

// What the source may give in all.
fn positive_total<G: OrderedGroup>(net: &HeldGraph<'_, G>) -> G
    ensures { G.parts_of result ≡ total
        (λ b. positive (amount_at net.now.worths b)) (length net.now.worths) }
{
    // proof: each sum of the positive worths of a net fits
    let _worths = net.worths();
    let mut sum = G::zero();
    for b in 0..net.len() {
        match sum.try_add(net.positive(b)) {
            Some(more) => sum = more,
            None => unreachable!(),
        }
    }
    sum
}

// The amount of a line, which must not be negative.
fn not_negative<G: OrderedGroup>(line: &BodyLine) -> Result<G, PitFault>
    requires { (G.counts ≡ true) ⊎ (line.now.count ≡ pos 0) }
    ensures { MatchResult result
        (λ x. (G.parts_of x ≡ amount_of line.now) × AtMost zero_amount (amount_of line.now))
        (λ e. (e ≡ PitFault.Negative) × ¬ (AtMost zero_amount (amount_of line.now))) }
{
    let amount: G = amount(line);
    if at_most(G::zero(), amount) {
        Ok(amount)
    } else {
        Err(PitFault::Negative)
    }
}

impl<G: OrderedGroup> Room<G> {
    /// The room for checks of this net, and of every other of as many blocks.
    ///
    /// # Errors
    /// Where memory is refused.
    pub fn new(alloc: Global, net: &Net<G>) -> Result<Room<G>, AllocError>
        ensures balances { IfOk result (λ r. length r.balances ≡ length net.now.worths) }
        ensures space { IfOk result (λ r. length net.now.worths ≤ r.space) }
        ensures open { IfOk result (λ r. r.is_pit ≡ false) }
    {
        Room::of_blocks(alloc, net.len())
    }

    /// The room for checks of nets of so many blocks: a balance, a place in the pit and a mark of each.
    ///
    /// # Errors
    /// Where memory is refused.
    pub fn of_blocks(alloc: Global, blocks: u32) -> Result<Room<G>, AllocError>
        ensures balances { IfOk result (λ r. length r.balances ≡ blocks) }
        ensures space { IfOk result (λ r. blocks ≤ r.space) }
        ensures open { IfOk result (λ r. r.is_pit ≡ false) }
    {
        Ok(Room {
            balances: zeros(alloc, blocks)?,
            pit: PitList::new(alloc, blocks)?,
            marks: vec![in alloc; false; blocks as usize]?,
            worth: G::zero(),
            left: G::zero(),
        })
    }

    /// Whether the room is one for nets of so many blocks.
    pub fn is_for(&self, blocks: u32) -> bool
        ensures { IsTrue result ↔ (length self.now.balances ≡ blocks) }
    {
        self.balances.len() == blocks as usize
    }

    fn clear_balances(&mut self)
        ensures size { length self.new.balances ≡ length self.old.balances }
        ensures zero { (b : ℕ) → b < length self.old.balances
            → amount_at self.new.balances b ≡ zero_amount }
        ensures space { self.new.space ≡ self.old.space }
        ensures pit { self.new.is_pit ≡ self.old.is_pit }
    {
        for b in 0..self.balances.len() {
            self.balances[b] = G::zero();
        }
    }

    // Clears the room, as a check begins.
    pub(crate) fn begin(&mut self, net: &HeldGraph<'_, G>) -> Result<(), AllocError>
        requires { length self.old.balances ≡ length net.now.worths }
        ensures size { length self.new.balances ≡ length self.old.balances }
        ensures sums { IfOk result (λ _. AreSumsOf net.now [] self.new) }
        ensures open { IfOk result (λ _. self.new.is_pit ≡ false) }
        ensures succeeds { self.old.is_pit ≡ false
            → length net.now.worths ≤ self.old.space → IsOk result }
    {
        self.clear_balances();
        self.worth = G::zero();
        self.left = positive_total(net);
        self.pit.clear(net.len())
    }

    // Adds to a balance.
    fn add(&mut self, block: u32, amount: G) -> Result<(), PitFault>
        requires { block < length self.old.balances }
        ensures { let sum = plus (amount_at self.old.balances block) (G.parts_of amount) in
            MatchResult result
            (λ _. self.new ≡ with_balance block sum self.old)
            (λ e. (e ≡ PitFault.TooLarge) × (self.new ≡ self.old) × ¬ (FitsPair sum)) }
    {
        let balance = &mut self.balances[block as usize];
        *balance = balance.try_add(amount).ok_or(PitFault::TooLarge)?;
        Ok(())
    }

    // Takes from a balance.
    fn take(&mut self, block: u32, amount: G) -> Result<(), PitFault>
        requires { block < length self.old.balances }
        ensures { let difference = minus (amount_at self.old.balances block) (G.parts_of amount) in
            MatchResult result
            (λ _. self.new ≡ with_balance block difference self.old)
            (λ e. (e ≡ PitFault.TooLarge) × (self.new ≡ self.old) × ¬ (FitsPair difference)) }
    {
        let balance = &mut self.balances[block as usize];
        *balance = balance.try_sub(amount).ok_or(PitFault::TooLarge)?;
        Ok(())
    }

    // Takes from what the source could still give.
    fn give(&mut self, amount: G) -> Result<(), PitFault>
        ensures { let difference = minus self.old.left (G.parts_of amount) in MatchResult result
            (λ _. self.new ≡ with_left difference self.old)
            (λ e. (e ≡ PitFault.TooLarge) × (self.new ≡ self.old) × ¬ (FitsPair difference)) }
    {
        self.left = self.left.try_sub(amount).ok_or(PitFault::TooLarge)?;
        Ok(())
    }

    fn put_block(&mut self, net: &HeldGraph<'_, G>, line: &BodyLine) -> Result<(), PitFault>
        requires kind { line.now.kind ≡ kind.Pit }
        requires may { MayPut net.now self.old line.now }
        ensures size { length self.new.balances ≡ length self.old.balances }
        ensures puts { Puts kind.Pit net.now line.now self.old self.new result }
    {
        let worth = net.worth(line.block);
        self.worth = self.worth.try_add(worth).ok_or(PitFault::TooLarge)?;
        self.pit.push(line.block);
        Ok(())
    }

    fn put_source(&mut self, net: &HeldGraph<'_, G>, line: &BodyLine) -> Result<(), PitFault>
        requires kind { line.now.kind ≡ kind.Source }
        requires may { MayPut net.now self.old line.now }
        requires counted { (G.counts ≡ true) ⊎ (line.now.count ≡ pos 0) }
        ensures size { length self.new.balances ≡ length self.old.balances }
        ensures puts { Puts kind.Source net.now line.now self.old self.new result }
    {
        let amount: G = not_negative(line)?;
        if !at_most(amount, net.positive(line.block)) {
            return Err(PitFault::OverCapacity(line.block));
        }
        self.add(line.block, amount)?;
        self.give(amount)
    }

    fn put_rest(&mut self, net: &HeldGraph<'_, G>, line: &BodyLine) -> Result<(), PitFault>
        requires kind { line.now.kind ≡ kind.Rest }
        requires may { MayPut net.now self.old line.now }
        requires counted { (G.counts ≡ true) ⊎ (line.now.count ≡ pos 0) }
        ensures size { length self.new.balances ≡ length self.old.balances }
        ensures puts { Puts kind.Rest net.now line.now self.old self.new result }
    {
        let amount: G = not_negative(line)?;
        if line.block != line.other {
            self.take(line.block, amount)?;
            self.add(line.other, amount)?;
        }
        Ok(())
    }

    fn put_sink(&mut self, net: &HeldGraph<'_, G>, line: &BodyLine) -> Result<(), PitFault>
        requires kind { line.now.kind ≡ kind.Sink }
        requires may { MayPut net.now self.old line.now }
        requires counted { (G.counts ≡ true) ⊎ (line.now.count ≡ pos 0) }
        ensures size { length self.new.balances ≡ length self.old.balances }
        ensures puts { Puts kind.Sink net.now line.now self.old self.new result }
    {
        let amount: G = not_negative(line)?;
        if !at_most(amount, net.negative(line.block)) {
            return Err(PitFault::OverCapacity(line.block));
        }
        self.take(line.block, amount)
    }

    // Puts a line: in this order `Negative`, `OverCapacity` and `TooLarge` of this line.
    pub(crate) fn put(&mut self, net: &HeldGraph<'_, G>, line: &BodyLine) -> Result<(), PitFault>
        requires may { MayPut net.now self.old line.now }
        requires counted { (G.counts ≡ true) ⊎ (line.now.count ≡ pos 0) }
        ensures size { length self.new.balances ≡ length self.old.balances }
        ensures sums { IfOk result (λ _. PutsLine net.now line.now self.old self.new) }
        ensures limits { IfOk result (λ _. keeps_by line.now.kind net.now.worths line.now) }
        ensures open { IfOk result (λ _. self.new.is_pit ≡ self.old.is_pit) }
        ensures fault { IfErr result (λ e. RefusesLine net.now line.now self.old e) }
    {
        match line.kind {
            LineKind::Pit => self.put_block(net, line),
            LineKind::Source => self.put_source(net, line),
            LineKind::Rest => self.put_rest(net, line),
            LineKind::Sink => self.put_sink(net, line),
            LineKind::End => Ok(()),
        }
    }

    // Makes the pit of the blocks, to which none comes any more.
    pub(crate) fn make_pit(&mut self)
        requires open { self.old.is_pit ≡ false }
        requires ascending { IsAscending self.old.blocks }
        ensures made { self.new.is_pit ≡ true }
        ensures blocks { self.new.blocks ≡ self.old.blocks }
        ensures balances { self.new.balances ≡ self.old.balances }
        ensures sums { (net : NetView) (ls : List LineView) → AreSumsOf net ls self.old
            → AreSumsOf net ls self.new }
    {
        self.pit.make_pit();
    }

    // The pit of the blocks.
    pub(crate) fn pit(&self) -> &Pit
        requires { self.now.is_pit ≡ true }
        ensures { result.now ≡ self.now.blocks }
    {
        self.pit.pit()
    }

    // The first pair of the net whose block is in the pit while its predecessor isn't.
    pub(crate) fn first_open(&mut self, net: &HeldGraph<'_, G>) -> Option<(u32, u32)>
        requires made { self.old.is_pit ≡ true }
        requires size { length self.old.balances ≡ length net.now.worths }
        ensures same { self.new ≡ self.old }
        ensures open { MatchOption result
            (IsClosed net.now.pairs (holds_of self.old.blocks))
            (λ pair. IsFirstOpen net.now.pairs (holds_of self.old.blocks) pair) }
    {
        // proof: the pairs of a net are of its blocks
        let _worths = net.worths();
        mark(&mut self.marks, self.pit.pit().blocks());
        first_open(net.held(), &self.marks)
    }

    // The first block of the net whose balance is not zero.
    pub(crate) fn first_unbalanced(&self, net: &HeldGraph<'_, G>) -> Option<u32>
        requires { length self.now.balances ≡ length net.now.worths }
        ensures is { MatchOption result
            ((b : ℕ) → b < length net.now.worths → amount_at self.now.balances b ≡ zero_amount)
            (λ b. IsFirstNot
            (λ k. amount_at self.now.balances k ≡ zero_amount) (length net.now.worths) b) }
        ensures flow { IfSome result (λ b. IsFirstUnbalanced net.now self.now b) }
    {
        for b in 0..net.len() {
            if !is_zero(self.balances[b as usize]) {
                return Some(b);
            }
        }
        None
    }

    // Whether the pit is worth what the source could still give.
    pub(crate) fn is_tight(&self) -> bool
        ensures is { IsTrue result ↔ (self.now.worth ≡ self.now.left) }
        ensures flow { (net : NetView) → TellsTight net self.now result }
    {
        same(self.worth, self.left)
    }

    // What the pit is worth.
    pub(crate) fn worth(&self) -> G
        ensures { G.parts_of result ≡ self.now.worth }
    {
        self.worth
    }
}
