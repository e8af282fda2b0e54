//! What `solve` writes for a net: the certificate of its pit, or a line that says why there is none.

ghost use Rattle.std.specs.Prelude.{◌≡◌, ◌+◌, ◌-◌, ◌^◌, ◌<◌, ◌↔◌, IfOk, MatchResult, IsErrOf, Ok, Err};
ghost use Rattle.check_pit.specs.Checks.{IsSound};
ghost use Rattle.certificate_file.specs.ReadBack.{IsPrice};
ghost use Rattle.solve_engines.specs.NetAnswers.{SendsCertificate, SendsLine, SendsNo, no_line};

use crate::certification::Solution;
use crate::outcome::Outcome;
use crate::solvers::Unsolved;
use check_engines::Verdict;
use check_pit::{Certificate, Price, write_certificate};
use closure_net::Net;
use counted_devices::{CountedWrite, write_text};
use engine_faults::EngineFault;
use ordered_group::OrderedGroup;

/// Writes what was found for a net: the certificate of a solution, at this price, or a line that says why there is
/// none. Whoever waits is told of a pit whose certificate was written.
///
/// A solution is one of this net: its flow proves its pit.
///
/// # Errors
/// `Memory`, `Thread` and `Stranger` where that is why: then nothing was written. `Device` where a write fails: the
/// writer then has a prefix.
pub fn write_answer<G: OrderedGroup, T: Outcome, W: CountedWrite>(
    net: &Net<G>,
    price: Price,
    found: Result<Solution<G>, Unsolved>,
    watch: &T,
    out: &mut W,
) -> Result<Verdict, EngineFault>
    requires price { IsPrice price }
    requires proved { IfOk found (λ s. IsSound net.now s.flow s.pit) }
    requires room { W.failed out.old < 2 ^ 64 - 1 }
    ensures answer { MatchResult found
        (λ s. SendsCertificate G.counts G.name price net.now s.pit s.flow
        (W.contents out.old) (W.contents out.new) result)
        (λ why. SendsNo why (W.contents out.old) (W.contents out.new) result) }
    ensures device { IsErrOf result EngineFault.Device ↔ (W.failed out.new ≡ W.failed out.old + 1) }
    ensures kept { ¬ IsErrOf result EngineFault.Device → W.failed out.new ≡ W.failed out.old }
{
    // proof: what is known of every net, that its pairs are of its blocks and in order
    let _worths = net.worths();
    let solution = match found {
        Ok(solution) => solution,
        Err(why) => return write_no(line_of_no(why)?, out),
    };
    let certificate = Certificate {
        blocks: net.len(),
        price,
        pit: solution.pit,
        flow: solution.flow,
    };
    write_certificate(&certificate, net.rests(), out)?;
    watch.proved(solution.count, net.len(), solution.worth);
    Ok(Verdict::Done)
}

/// The line that says why there is no pit.
///
/// # Errors
/// `Memory`, `Thread` and `Stranger` where that is why: then there is no line.
pub fn line_of_no(why: Unsolved) -> Result<&'static [u8], EngineFault>
    ensures line { MatchResult result
        (λ line. no_line why ≡ Ok line.now)
        (λ fault. no_line why ≡ Err fault) }
    ensures no_device { ¬ IsErrOf result EngineFault.Device }
{
    match why {
        Unsolved::Unsettled | Unsolved::GaveUp => Ok(b"UNSETTLED\n"),
        Unsolved::TooLarge => Ok(b"REFUSED TooLarge\n"),
        Unsolved::NoMemory => Err(EngineFault::Memory),
        Unsolved::NoThread => Err(EngineFault::Thread),
        Unsolved::Stranger => Err(EngineFault::Stranger),
    }
}

/// Writes the line of an answer without a certificate.
///
/// # Errors
/// `Device` where a write fails; the writer then has a prefix of the line.
pub fn write_no<W: CountedWrite>(line: &[u8], out: &mut W) -> Result<Verdict, EngineFault>
    requires { W.failed out.old < 2 ^ 64 - 1 }
    ensures answer { SendsLine line.now (W.contents out.old) (W.contents out.new) result }
    ensures device { IsErrOf result EngineFault.Device ↔ (W.failed out.new ≡ W.failed out.old + 1) }
    ensures kept { ¬ IsErrOf result EngineFault.Device → W.failed out.new ≡ W.failed out.old }
{
    write_text(out, line)?;
    Ok(Verdict::No)
}
