//! Reads the first four lines of a certificate from a device: the number of blocks, the price and the kind of
//! amounts, or the first fault.

ghost use Rattle.std.specs.Prelude.{◌≡◌, ℕ, ◌+◌, ◌-◌, ◌^◌, ◌<◌, List, length, Result, Ok, Err, IsErrOf, MatchResult};
ghost use Rattle.std.specs.Fn.{FnOnceReturnsAt};
ghost use Rattle.check_pit.specs.declared.stream_fault.StreamFault.TheVariants as fault;
ghost use Rattle.certificate_file.specs.declared.cert_fault.LineFault.{LineFault};
ghost use Rattle.certificate_file.specs.Pieces.{read_line};
ghost use Rattle.check_pit.specs.TakenLines.{LinePassed, AlwaysGives, TakesLine, LacksLine};
ghost use Rattle.check_pit.specs.StreamHeaders.{GivesHeader, LacksHeader};

use crate::stream_fault::StreamFault;
use crate::stream_lines::StreamLines;
use certificate_file::{
    CertFault, Header, LineFault, blocks_in, group_in, in_line, price_in, version_in,
};
use counted_devices::CountedRead;

// Passes the line of this length where it was read, and not where it has a fault.
fn pass_read<R, T>(
    lines: &mut StreamLines<R>,
    count: usize,
    read: Result<T, CertFault>,
) -> Result<T, StreamFault>
    requires { count < length lines.old.held }
    ensures { MatchResult read
        (λ x. (result ≡ Ok x) × LinePassed count lines.old lines.new)
        (λ e. (result ≡ Err (fault.Cert e)) × (lines.new ≡ lines.old)) }
{
    match read {
        Ok(value) => {
            lines.pass(count);
            Ok(value)
        }
        Err(fault) => Err(StreamFault::Cert(fault)),
    }
}

// Takes a line as `read` reads its text, or gives its fault.
fn take_line<R: CountedRead, T, F: FnOnce(&[u8]) -> Result<T, LineFault> + Drop>(
    lines: &mut StreamLines<R>,
    read: F,
) -> Result<T, StreamFault>
    requires room { R.failed lines.old.from < 2 ^ 64 - 1 }
    requires callable { F.IsAlwaysCallable read }
    ensures line { MatchResult result
        (λ x. (f : List ℕ → Result T LineFault) → AlwaysGives (FnOnceReturnsAt F.FnOnce read) f
        → TakesLine R.remaining (read_line f) lines.old lines.new x)
        (λ e. (f : List ℕ → Result T LineFault) → AlwaysGives (FnOnceReturnsAt F.FnOnce read) f
        → LacksLine R.remaining (read_line f) lines.old lines.new e) }
    ensures device { IsErrOf result StreamFault.Device
        → R.failed lines.new.from ≡ R.failed lines.old.from + 1 }
    ensures kept { ¬ IsErrOf result StreamFault.Device
        → R.failed lines.new.from ≡ R.failed lines.old.from }
{
    let count = lines.next_length()?;
    let value = in_line(lines.number() + 1, read(lines.front(count)));
    pass_read(lines, count, value)
}

/// The header.
///
/// # Errors
/// `Device` where a read failed; `InputTooLong` where the stream gave more bytes than it may; `Cert` with the fault of
/// the first faulty line.
pub fn read_header<R: CountedRead>(lines: &mut StreamLines<R>) -> Result<Header, StreamFault>
    requires count { R.failed lines.old.from < 2 ^ 64 - 1 }
    requires first { lines.old.number ≡ 0 }
    ensures header { MatchResult result
        (λ h. GivesHeader R.remaining lines.old lines.new h)
        (λ e. LacksHeader R.remaining lines.old lines.new e) }
    ensures device { IsErrOf result StreamFault.Device
        → R.failed lines.new.from ≡ R.failed lines.old.from + 1 }
    ensures kept { ¬ IsErrOf result StreamFault.Device
        → R.failed lines.new.from ≡ R.failed lines.old.from }
{
    let version = take_line(lines, |line: &[u8]| version_in(line))?;
    let blocks = take_line(lines, |line: &[u8]| blocks_in(None, line))?;
    let price = take_line(lines, |line: &[u8]| price_in(version, line))?;
    let group = take_line(lines, |line: &[u8]| group_in(None, line))?;
    Ok(Header {
        blocks,
        price,
        group,
    })
}
