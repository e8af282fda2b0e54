//! Picard's network of a mine, as a solver needs it: pairs that are found by block and by predecessor, and each
//! block's worth. Worths whose sums don't fit are refused.

ghost use Rattle.std.specs.Prelude.{◌≡◌, ◌↔◌, ◌<◌, IsTrue, Some, length, map, IfOk, MatchResult};
ghost use Rattle.ordered_group.specs.Amount.{positive, negative};
ghost use Rattle.ordered_group.specs.Sums.{amount_at};
ghost use Rattle.closure_net.specs.Network.{net_view, IsNet};
ghost use Rattle.closure_net.specs.Faults.{NetFaultStands, WorthsFaultStands, net_fault_text};

use crate::equality::{same_amounts, same_pairs};
use crate::graph::GraphRef;
use crate::worths::{opposite_part, worths_fit, worths_of_blocks};
use ordered_group::{OrderedGroup, positive_part};
use prec_file::Rests;
use std::alloc::{AllocError, Global};
use std::fmt;
use std::marker::Model;

/// Why there is no net of these blocks.
#[derive(Clone, Copy, Debug, PartialEq, Eq)]
pub enum NetFault {
    /// There are more or fewer worths than blocks.
    WrongLength,
    /// A worth's opposite, or the sum of the positive worths, doesn't fit.
    TooLarge,
    /// Memory was refused.
    NoMemory,
}

impl fmt::Display for NetFault {
    ghost output = { λ fault. Some (net_fault_text fault) };

    fn fmt<W: fmt::Write>(&self, f: &mut fmt::Formatter<W>) -> fmt::Result {
        match self {
            NetFault::WrongLength => write!(f, "WrongLength"),
            NetFault::TooLarge => write!(f, "TooLarge"),
            NetFault::NoMemory => write!(f, "NoMemory"),
        }
    }
}

/// Picard's network: the pairs, which are found by block and by predecessor, and what each block is worth.
#[derive(Drop)]
pub struct Net<G: OrderedGroup> {
    rests: Rests,
    worths: Vec<G>,
}

impl<G: OrderedGroup> Model for Net<G> {
    ghost use Rattle.std.specs.Prelude.{map};
    ghost use Rattle.closure_net.specs.Network.{NetView, net_view, IsNetParts};

    ghost Value = { NetView };

    ghost view = { λ n. net_view n.rests.pairs (map G.parts_of n.worths.items) };

    ghost invariant = { λ n. IsNetParts n.rests (map G.parts_of n.worths.items) };
}

impl<G: OrderedGroup> Net<G> {
    /// The net of blocks that rest on each other in this way, with the worth of each.
    ///
    /// # Errors
    /// In this order: `WrongLength` where there are more or fewer worths than blocks; `TooLarge`
    /// where the opposite of a worth overflows, or a sum of the positive worths in their order
    /// does.
    pub fn build(rests: Rests, worths: Vec<G>) -> Result<Net<G>, NetFault>
        ensures { MatchResult result
            (λ n. (n ≡ net_view rests.pairs (map G.parts_of worths.items))
            × (rests.blocks ≡ length worths.items))
            (λ e. NetFaultStands rests.blocks (map G.parts_of worths.items) e) }
    {
        if rests.len() as usize != worths.len() {
            return Err(NetFault::WrongLength);
        }
        if !worths_fit(&worths) {
            return Err(NetFault::TooLarge);
        }
        Ok(Net { rests, worths })
    }

    /// The net of blocks that rest on each other in this way, with the worth of each in
    /// billionths.
    ///
    /// # Errors
    /// `WrongLength` where there are more or fewer worths than blocks, before all else. `TooLarge`
    /// where a block's amount, its opposite or a sum of the positive ones in their order overflows.
    /// `NoMemory` where memory for the amounts was refused.
    pub fn of_worths(alloc: Global, rests: Rests, nanos: &[i128]) -> Result<Net<G>, NetFault>
        ensures { MatchResult result
            (λ n. (n ≡ net_view rests.pairs (map (λ v. G.block_parts v rests.blocks) nanos.now))
            × (rests.blocks ≡ length nanos.now))
            (λ e. WorthsFaultStands G.block_parts rests.blocks nanos.now e) }
    {
        match worths_of_blocks(alloc, rests.len(), nanos) {
            Ok(worths) => Ok(Net { rests, worths }),
            Err(fault) => Err(fault),
        }
    }

    /// The graph of the net: what each block rests on, by block alone, and what it is worth.
    pub fn graph(&self) -> GraphRef<'_, G>
        ensures { result ≡ self.now }
    {
        GraphRef::of_parts(self.rests.predecessors(), &self.worths)
    }

    /// How many blocks there are.
    pub fn len(&self) -> u32
        ensures { result ≡ length self.now.worths }
    {
        self.rests.len()
    }

    /// What block b is worth.
    pub fn worth(&self, b: u32) -> G
        requires { b < length self.now.worths }
        ensures { G.parts_of result ≡ amount_at self.now.worths b }
    {
        self.worths[b as usize]
    }

    /// What block b is worth where that is positive, and else zero: what the source may give it.
    pub fn positive(&self, b: u32) -> G
        requires { b < length self.now.worths }
        ensures { G.parts_of result ≡ positive (amount_at self.now.worths b) }
    {
        positive_part(self.worths[b as usize])
    }

    /// The opposite of what block b is worth where that is positive, and else zero: what it may
    /// give the sink.
    pub fn negative(&self, b: u32) -> G
        requires { b < length self.now.worths }
        ensures { G.parts_of result ≡ negative (amount_at self.now.worths b) }
    {
        opposite_part(&self.worths, b)
    }

    /// What rests on what.
    pub fn rests(&self) -> &Rests
        ensures blocks { result.now.blocks ≡ length self.now.worths }
        ensures pairs { result.now.pairs ≡ self.now.pairs }
    {
        &self.rests
    }

    /// What each block is worth.
    pub fn worths(&self) -> &[G]
        ensures is { map G.parts_of result.now ≡ self.now.worths }
        ensures net { IsNet self.now }
    {
        &self.worths
    }

    /// Whether both nets have the same pairs and the same worths. Linear in their sizes.
    pub fn same_as(&self, other: &Net<G>) -> bool
        ensures { IsTrue result ↔ (self.now ≡ other.now) }
    {
        same_pairs(&self.rests, &other.rests) && same_amounts(&self.worths, &other.worths)
    }

    /// A copy of the net, with memory of its own.
    ///
    /// # Errors
    /// Where memory is refused.
    pub fn copy(&self, alloc: Global) -> Result<Net<G>, AllocError>
        ensures { IfOk result (λ n. n ≡ self.now) }
    {
        let rests = self.rests.copy(alloc)?;
        let worths = Vec::from_slice(alloc, &self.worths)?;
        Ok(Net { rests, worths })
    }

    /// What rests on what, without the worths.
    pub fn into_rests(self) -> Rests
        ensures blocks { result.blocks ≡ length self.worths }
        ensures pairs { result.pairs ≡ self.pairs }
    {
        let Net { rests, worths: _ } = self;
        rests
    }
}
