//! Makes the lists with which a run begins: each block's excess, no operation, and which blocks have excess.

ghost use Rattle.std.specs.Prelude.{◌≡◌, ◌≤◌, not, IfOk, All, length, map, replicate};
ghost use Rattle.ordered_group.specs.Amount.{is_zero, positive, FitsPair};
ghost use Rattle.ordered_group.specs.Sums.{amount_at};
ghost use Rattle.machine_law.specs.declared.operations.Operation.TheVariants.{Idle};
ghost use Rattle.machine_law.specs.Reads.{is_positive};
ghost use Rattle.async_step.specs.Views.{IsMarked};

use crate::marks::Marks;
use crate::predicates::is_positive;
use closure_net::Net;
use fixed_worth::MOST_BLOCKS;
use machine_law::Operation;
use ordered_group::{OrderedGroup, is_zero, positive_part};
use std::alloc::{AllocError, Global};

/// What is positive of each block's worth.
pub fn positives<G: OrderedGroup>(alloc: Global, net: &Net<G>) -> Result<Vec<G>, AllocError>
    ensures are { IfOk result (λ v. map G.parts_of v.items ≡ map positive net.now.worths) }
    ensures fit { IfOk result (λ v. All FitsPair (map G.parts_of v.items)) }
{
    let mut amounts: Vec<G> = Vec::new(alloc);
    let worths = net.worths();
    for worth in worths {
        let amount = positive_part(*worth);
        // proof: the numbers of an amount fit their type
        let _numbers = amount.parts();
        amounts.push(amount)?;
    }
    Ok(amounts)
}

/// No operation for each of so many blocks.
pub fn idle_operations<N: Copy>(alloc: Global, n: u32) -> Result<Vec<Operation<N>>, AllocError>
    ensures { IfOk result (λ v. v.items ≡ replicate n Idle) }
{
    let mut operations: Vec<Operation<N>> = Vec::new(alloc);
    for _k in 0..n {
        operations.push(Operation::Idle)?;
    }
    Ok(operations)
}

/// The blocks whose excess is positive.
pub fn waiting_marks<G: OrderedGroup>(alloc: Global, excess: &[G]) -> Result<Marks, AllocError>
    requires { length excess.now ≤ MOST_BLOCKS }
    ensures { IfOk result (λ m. IsMarked
        (λ b. is_positive (amount_at (map G.parts_of excess.now) b)) (length excess.now) m) }
{
    let blocks = excess.len() as u32;
    let mut marks = Marks::new(alloc, blocks)?;
    for b in 0..blocks {
        marks.set(b, is_positive(excess[b as usize]));
    }
    Ok(marks)
}

/// The blocks whose excess isn't zero.
pub fn busy_marks<G: OrderedGroup>(alloc: Global, excess: &[G]) -> Result<Marks, AllocError>
    requires { length excess.now ≤ MOST_BLOCKS }
    ensures { IfOk result (λ m. IsMarked
        (λ b. not (is_zero (amount_at (map G.parts_of excess.now) b))) (length excess.now) m) }
{
    let blocks = excess.len() as u32;
    let mut marks = Marks::new(alloc, blocks)?;
    for b in 0..blocks {
        marks.set(b, !is_zero(excess[b as usize]));
    }
    Ok(marks)
}
