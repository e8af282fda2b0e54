//! Amounts as the search has them: what the blocks have left, and what the arcs of the trees carry.

ghost use Rattle.std.specs.Prelude.{◌≡◌, length, IfOk};

use crate::fault::PseudoflowFault;
use crate::links::Link;
use closure_net::Net;
use ordered_group::OrderedGroup;
use std::alloc::Global;
use std::cmp::Ordering;

/// What the search needs of an amount.
///
/// Nothing is claimed of sums and orders. They lead the search to a forest; the flow is found from the forest alone, in
/// the net's own amounts, and a checker judges it.
pub trait Amount: Copy {
    /// Nothing.
    fn zero() -> Self;

    /// The sum, or `TooLarge` where it doesn't fit.
    fn sum(self, other: Self) -> Result<Self, PseudoflowFault>;

    /// The difference, or `TooLarge` where it doesn't fit.
    fn difference(self, other: Self) -> Result<Self, PseudoflowFault>;

    /// Whether it is greater than zero.
    fn is_positive(self) -> bool;

    /// The lesser of two.
    fn lesser(self, other: Self) -> Self;
}

/// Units, in a number that a machine adds at once.
impl Amount for i64 {
    fn zero() -> i64 {
        0
    }

    fn sum(self, other: i64) -> Result<i64, PseudoflowFault> {
        self.checked_add(other).ok_or(PseudoflowFault::TooLarge)
    }

    fn difference(self, other: i64) -> Result<i64, PseudoflowFault> {
        self.checked_sub(other).ok_or(PseudoflowFault::TooLarge)
    }

    fn is_positive(self) -> bool {
        self > 0
    }

    fn lesser(self, other: i64) -> i64 {
        if other < self { other } else { self }
    }
}

/// Units, where 64 bits are too few.
impl Amount for i128 {
    fn zero() -> i128 {
        0
    }

    fn sum(self, other: i128) -> Result<i128, PseudoflowFault> {
        self.checked_add(other).ok_or(PseudoflowFault::TooLarge)
    }

    fn difference(self, other: i128) -> Result<i128, PseudoflowFault> {
        self.checked_sub(other).ok_or(PseudoflowFault::TooLarge)
    }

    fn is_positive(self) -> bool {
        self > 0
    }

    fn lesser(self, other: i128) -> i128 {
        if other < self { other } else { self }
    }
}

/// An amount of the net's group.
#[derive(Clone, Copy)]
pub struct OfGroup<G: OrderedGroup> {
    pub amount: G,
}

impl<G: OrderedGroup> Amount for OfGroup<G> {
    fn zero() -> OfGroup<G> {
        OfGroup { amount: G::zero() }
    }

    fn sum(self, other: OfGroup<G>) -> Result<OfGroup<G>, PseudoflowFault> {
        match self.amount.try_add(other.amount) {
            Some(amount) => Ok(OfGroup { amount }),
            None => Err(PseudoflowFault::TooLarge),
        }
    }

    fn difference(self, other: OfGroup<G>) -> Result<OfGroup<G>, PseudoflowFault> {
        match self.amount.try_sub(other.amount) {
            Some(amount) => Ok(OfGroup { amount }),
            None => Err(PseudoflowFault::TooLarge),
        }
    }

    fn is_positive(self) -> bool {
        self.amount.is_positive()
    }

    fn lesser(self, other: OfGroup<G>) -> OfGroup<G> {
        match self.amount.cmp(&other.amount) {
            Ordering::Greater => other,
            _ => self,
        }
    }
}

/// The worths of these blocks of the net, in its own amounts.
///
/// # Errors
/// `NoMemory` where memory was refused; `Broken` where one is no block of the net.
pub fn amounts_of<G: OrderedGroup>(
    alloc: Global,
    net: &Net<G>,
    blocks: &[Link],
) -> Result<Vec<OfGroup<G>>, PseudoflowFault>
    ensures { IfOk result (λ v. length v.items ≡ length blocks.now) }
{
    let n = net.len();
    let mut amounts = Vec::with_capacity(alloc, blocks.len())?;
    for block in blocks {
        let b = block.block(n as usize).ok_or(PseudoflowFault::Broken)?;
        amounts.push_reserved(OfGroup {
            amount: net.worth(b),
        });
    }
    Ok(amounts)
}
