//! What flows over each of several arcs, read and set by the arc's number. Where few arcs carry a flow it takes little
//! memory.

ghost use Rattle.std.specs.Prelude.{◌≡◌, ◌<◌, ◌≤◌, List, length, map, replicate, slice_set, IfOk, IfErr, MatchResult};
ghost use Rattle.ordered_group.specs.Amount.{zero_amount};
ghost use Rattle.ordered_group.specs.Sums.{amount_at};
ghost use Rattle.closure_net.specs.Carrying as spec;

use ordered_group::OrderedGroup;
use std::alloc::{AllocError, Global};
use std::marker::Model;

/// An amount for each arc of one kind, in their order: the arcs of the pairs, those from the source to each block, or
/// those from each block to the sink.
///
/// Most flows carry something over few of these, so that a number for each arc and the amounts of those few take a
/// small part of the memory that an amount for each arc would.
#[derive(Drop)]
pub struct Carried<G: OrderedGroup> {
    // For each arc the index of its amount plus one, or 0 where none was set. `None` where `amounts` has one for each
    // arc, in their order.
    places: Option<Vec<u32>>,
    amounts: Vec<G>,
}

impl<G: OrderedGroup> Model for Carried<G> {
    ghost use Rattle.std.specs.Prelude.{List, map, length, IfSome};
    ghost use Rattle.ordered_group.specs.Amount.{Amount};
    ghost use Rattle.closure_net.specs.Carrying.{carried_by, ArePlaces};

    ghost Value = { List Amount };

    ghost view = { λ c. carried_by (λ v. v.items) c.places (map G.parts_of c.amounts.items) };

    ghost invariant = { λ c. IfSome c.places (λ v. ArePlaces v.items (length c.amounts.items)) };
}

impl<G: OrderedGroup> Carried<G> {
    /// These amounts, one for each arc.
    pub fn from_list(amounts: Vec<G>) -> Carried<G>
        ensures { result ≡ map G.parts_of amounts.items }
    {
        Carried {
            places: None,
            amounts,
        }
    }

    /// Nothing over each of so many arcs.
    ///
    /// # Errors
    /// Where memory is refused.
    pub fn nothing(alloc: Global, arcs: u32) -> Result<Carried<G>, AllocError>
        ensures { IfOk result (λ c. c ≡ replicate arcs zero_amount) }
    {
        let places = vec![in alloc; 0; arcs as usize]?;
        Ok(Carried {
            places: Some(places),
            amounts: Vec::new(alloc),
        })
    }

    /// How many arcs there are.
    pub fn len(&self) -> usize
        ensures { result ≡ length self.now }
    {
        match &self.places {
            Some(places) => places.len(),
            None => self.amounts.len(),
        }
    }

    /// What an arc carries.
    pub fn at(&self, arc: u32) -> G
        requires { arc < length self.now }
        ensures { G.parts_of result ≡ amount_at self.now arc }
    {
        match &self.places {
            Some(places) => amount_of_place(&self.amounts, places[arc as usize]),
            None => self.amounts[arc as usize],
        }
    }

    /// Sets what an arc carries.
    ///
    /// Takes memory only where the arc is set for the first time.
    ///
    /// # Errors
    /// Where memory for one more amount is refused. Nothing is changed then, and the arc carries nothing.
    pub fn set(&mut self, arc: u32, amount: G) -> Result<(), AllocError>
        requires { arc < length self.old }
        ensures is { MatchResult result
            (λ _. self.new ≡ slice_set self.old arc (G.parts_of amount))
            (λ _. self.new ≡ self.old) }
        ensures first { IfErr result (λ _. amount_at self.old arc ≡ zero_amount) }
    {
        match &mut self.places {
            Some(places) => {
                let place = places[arc as usize] as usize;
                if place == 0 {
                    self.amounts.push(amount)?;
                    places[arc as usize] = self.amounts.as_slice().len() as u32;
                } else {
                    self.amounts[place - 1] = amount;
                }
            }
            None => self.amounts[arc as usize] = amount,
        }
        Ok(())
    }
}

// The amount of a place, where places begin with 1 and 0 is that of nothing.
fn amount_of_place<G: OrderedGroup>(amounts: &[G], place: u32) -> G
    requires { place ≤ length amounts.now }
    ensures { G.parts_of result ≡ spec.amount_of_place (map G.parts_of amounts.now) place }
{
    if place == 0 {
        G::zero()
    } else {
        amounts[place as usize - 1]
    }
}
