//! Reads the text of a certificate: its pit and its flow for a mine's blocks and pairs, or the first fault of the text;
//! or its first four lines alone, which tell for which number of blocks, price and kind of amounts it was made.

ghost use Rattle.std.specs.Prelude.{◌≡◌, None, Some, Err, MatchResult};
ghost use Rattle.certificate_file.specs.Pieces.{pieces_of};
ghost use Rattle.certificate_file.specs.Header.{header_for, header_of};
ghost use Rattle.certificate_file.specs.Certificate.{UnlessCertMemory, IsRead, cert_fault_of, wanted_for};

use crate::body_reader::read_body;
use crate::cert_fault::CertFault;
use crate::certificate::Certificate;
use crate::gathering::Parts;
use crate::header::{Header, Wanted};
use crate::header_lines::read_header;
use crate::piece_reader::Pieces;
use ordered_group::OrderedGroup;
use prec_file::Rests;
use std::alloc::Global;

/// Reads the header of a certificate: its first four lines. What stands after them isn't looked at.
pub fn header(text: &[u8]) -> Result<Header, CertFault>
    ensures { result ≡ header_of (pieces_of text.now) }
{
    let mut pieces = Pieces::new(text);
    read_header(&mut pieces, None)
}

/// Reads a certificate for these blocks and pairs, with amounts of the group G.
///
/// The text that is read is the only one of its certificate: what [`crate::write_certificate`] writes.
///
/// # Errors
/// The fault of the first faulty line; `NoMemory` only where memory was refused, and not where the header has a fault.
pub fn read_certificate<G: OrderedGroup>(
    alloc: Global,
    text: &[u8],
    rests: &Rests,
) -> Result<Certificate<G>, CertFault>
    ensures read { MatchResult result
        (λ c. (cert_fault_of G.counts G.name rests.now.blocks rests.now.pairs text.now ≡ None)
        × IsRead G.counts G.name rests.now.blocks rests.now.pairs text.now
        c.blocks c.price c.pit c.flow)
        (λ e. UnlessCertMemory e
        (cert_fault_of G.counts G.name rests.now.blocks rests.now.pairs text.now ≡ Some e)) }
    ensures header { (fault : CertFault)
        → header_for (wanted_for rests.now.blocks G.name) (pieces_of text.now) ≡ Err fault
        → result ≡ Err fault }
{
    let mut pieces = Pieces::new(text);
    let wanted = Wanted {
        blocks: rests.len(),
        group: G::group(),
    };
    let header = read_header(&mut pieces, Some(wanted))?;
    let Ok(mut parts) = Parts::new(alloc, header.blocks, rests.pairs()) else {
        return Err(CertFault::NoMemory);
    };
    read_body(&mut pieces, rests, &mut parts)?;
    match parts.finish() {
        Some((pit, flow)) => Ok(Certificate {
            blocks: header.blocks,
            price: header.price,
            pit,
            flow,
        }),
        None => unreachable!(),
    }
}
