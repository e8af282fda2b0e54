//! Reads the lines after a certificate's header up to `END`, and adds each to the pit and the flow, or gives the
//! first fault.

ghost use Rattle.std.specs.Prelude.{◌≡◌, length, Some, None, MatchResult};
ghost use Rattle.certificate_file.specs.BodyLines as spec;
ghost use Rattle.certificate_file.specs.BodyLines.{body_fault, lines_of_pieces};
ghost use Rattle.certificate_file.specs.Certificate.{Covers, UnlessCertMemory, has_pair};
ghost use Rattle.certificate_file.specs.Gathered.{Adds};

use crate::body_lines::{BodyLine, LineKind, read_in_order};
use crate::cert_fault::CertFault;
use crate::gathering::{Parts, counts};
use crate::piece_reader::Pieces;
use ordered_group::OrderedGroup;
use prec_file::Rests;

/// Whether a line is the last one.
pub fn is_end(kind: LineKind) -> bool
    ensures { result ≡ spec.is_end kind }
{
    matches!(kind, LineKind::End)
}

// Nothing may stand after the last line.
fn read_end(pieces: &Pieces) -> Result<(), CertFault>
    ensures { MatchResult result
        (λ _. spec.cert_end_fault pieces.now.number pieces.now.pieces ≡ None)
        (λ e. spec.cert_end_fault pieces.now.number pieces.now.pieces ≡ Some e) }
{
    if pieces.is_done() {
        Ok(())
    } else {
        Err(CertFault::Text(pieces.number() + 1))
    }
}

/// Adds what the lines say, up to END, after which nothing may stand.
pub fn read_body<G: OrderedGroup>(
    pieces: &mut Pieces,
    rests: &Rests,
    parts: &mut Parts<G>,
) -> Result<(), CertFault>
    requires { Covers rests.now.blocks (length rests.now.pairs) parts.old.flow }
    ensures { MatchResult result
        (λ _. (body_fault G.counts rests.now.blocks
        (has_pair rests.now.pairs) None pieces.old.number pieces.old.pieces ≡ None)
        × Covers rests.now.blocks (length rests.now.pairs) parts.new.flow
        × Adds rests.now.blocks rests.now.pairs
        (lines_of_pieces G.counts rests.now.blocks pieces.old.pieces) parts.old parts.new)
        (λ e. UnlessCertMemory e (body_fault G.counts rests.now.blocks
        (has_pair rests.now.pairs) None pieces.old.number pieces.old.pieces ≡ Some e)) }
{
    let counts = counts::<G>();
    let n = rests.len();
    let mut previous: Option<BodyLine> = None;
    loop {
        let line = read_in_order(pieces, counts, n, previous)?;
        if is_end(line.kind) {
            return read_end(pieces);
        }
        parts.put(rests, &line, pieces.number())?;
        previous = Some(line);
    }
}
