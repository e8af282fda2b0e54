//! Gathers the pit and the flow of a certificate line by line, and refuses an amount over a pair that the mine
//! doesn't have.

ghost use Rattle.std.specs.Prelude.{◌≡◌, ℕ, ◌<◌, true, false, ◌⊎◌, pos, [], ◌∷◌, length, slice_set, IfOk, MatchOption, MatchResult};
ghost use Rattle.ordered_group.specs.Amount.{zero_amount};
ghost use Rattle.ordered_group.specs.Sums.{amount_at};
ghost use Rattle.prec_file.specs.Rests.{IsRests};
ghost use Rattle.closure_net.specs.Network.{IsAscending};
ghost use Rattle.certificate_file.specs.BodyLines.{is_of_model};
ghost use Rattle.certificate_file.specs.Certificate.{Covers, UnlessCertMemory, amount_of, has_pair};
ghost use Rattle.certificate_file.specs.Gathered.{Gathered, Adds};

use crate::body_lines::{BodyLine, LineKind};
use crate::cert_fault::CertFault;
use closure_net::{Carried, Flow, Pit};
use ordered_group::OrderedGroup;
use prec_file::Rests;
use std::alloc::{AllocError, Global};
use std::marker::Model;

/// The blocks of the pit so far, and the amounts of the flow, zero where no line has given one.
#[derive(Drop)]
pub struct Parts<G: OrderedGroup> {
    pit: Vec<u32>,
    source: Carried<G>,
    rest: Carried<G>,
    sink: Carried<G>,
}

impl<G: OrderedGroup> Model for Parts<G> {
    ghost use Rattle.closure_net.specs.Network.{flow_view};
    ghost use Rattle.certificate_file.specs.Gathered.{Gathered};

    ghost Value = { Gathered };

    ghost view = { λ p. record { pit = p.pit.items; flow = flow_view p.source p.rest p.sink } };
}

/// Whether amounts of the group have a count.
pub fn counts<G: OrderedGroup>() -> bool
    ensures { result ≡ G.counts }
{
    G::from_parts(0, 1).is_some()
}

/// The amount that a line gives. Its group has counts, or the line has none.
pub fn amount<G: OrderedGroup>(line: &BodyLine) -> G
    requires { (G.counts ≡ true) ⊎ (line.now.count ≡ pos 0) }
    ensures { G.parts_of result ≡ amount_of line.now }
{
    match G::from_parts(line.worth, line.count) {
        Some(amount) => amount,
        None => unreachable!(),
    }
}

// Sets the amount at a place.
fn set<G: OrderedGroup>(amounts: &mut Carried<G>, place: u32, amount: G) -> Result<(), CertFault>
    requires { place < length amounts.old }
    ensures { MatchResult result
        (λ _. amounts.new ≡ slice_set amounts.old place (G.parts_of amount))
        (λ e. e ≡ CertFault.NoMemory) }
{
    amounts.set(place, amount).map_err(|_| CertFault::NoMemory)
}

impl<G: OrderedGroup> Parts<G> {
    /// No block, and amounts of zero for n blocks and m pairs.
    pub fn new(alloc: Global, n: u32, m: u32) -> Result<Parts<G>, AllocError>
        ensures empty { IfOk result (λ p. p.pit ≡ []) }
        ensures covers { IfOk result (λ p. Covers n m p.flow) }
        ensures source { IfOk result (λ p. (b : ℕ) → amount_at p.flow.source b ≡ zero_amount) }
        ensures rest { IfOk result (λ p. (k : ℕ) → amount_at p.flow.rest k ≡ zero_amount) }
        ensures sink { IfOk result (λ p. (b : ℕ) → amount_at p.flow.sink b ≡ zero_amount) }
    {
        let source = Carried::nothing(alloc, n)?;
        let rest = Carried::nothing(alloc, m)?;
        let sink = Carried::nothing(alloc, n)?;
        Ok(Parts {
            pit: Vec::new(alloc),
            source,
            rest,
            sink,
        })
    }

    /// Adds what a line says: `UnknownPair` where the model doesn't have its pair.
    pub fn put(&mut self, rests: &Rests, line: &BodyLine, number: u64) -> Result<(), CertFault>
        requires rests { IsRests rests.now }
        requires covers { Covers rests.now.blocks (length rests.now.pairs) self.old.flow }
        requires known { line.now.block < rests.now.blocks }
        requires counted { (G.counts ≡ true) ⊎ (line.now.count ≡ pos 0) }
        ensures { MatchResult result
            (λ _. (is_of_model (has_pair rests.now.pairs) line.now.kind line.now ≡ true)
            × Covers rests.now.blocks (length rests.now.pairs) self.new.flow
            × Adds rests.now.blocks rests.now.pairs (line.now ∷ []) self.old self.new)
            (λ e. UnlessCertMemory e ((e ≡ CertFault.UnknownPair number)
            × (is_of_model (has_pair rests.now.pairs) line.now.kind line.now ≡ false))) }
    {
        match line.kind {
            LineKind::Pit => self.pit.push(line.block).map_err(|_| CertFault::NoMemory)?,
            LineKind::Source => set(&mut self.source, line.block, amount(line))?,
            LineKind::Rest => {
                let pair = rests
                    .find(line.block, line.other)
                    .ok_or(CertFault::UnknownPair(number))?;
                set(&mut self.rest, pair, amount(line))?;
            }
            LineKind::Sink => set(&mut self.sink, line.block, amount(line))?,
            LineKind::End => {}
        }
        Ok(())
    }

    /// The pit and the flow: `None` exactly where the blocks are not ascending.
    pub fn finish(self) -> Option<(Pit, Flow<G>)>
        ensures { MatchOption result
            (¬ (IsAscending self.pit))
            (λ r. (r.0 ≡ self.pit) × (r.1 ≡ self.flow) × IsAscending self.pit) }
    {
        let Parts {
            pit,
            source,
            rest,
            sink,
        } = self;
        let pit = Pit::new(pit)?;
        Some((pit, Flow::new(source, rest, sink)))
    }
}
