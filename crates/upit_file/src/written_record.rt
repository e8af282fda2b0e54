//! Makes the line that a `.upit` text has for a block and its value.

ghost use Rattle.std.specs.Prelude.{◌≡◌, ◌+◌, ◌<◌, ◌≤◌, ◌^◌, ◌++◌, length};
ghost use Rattle.fixed_worth.specs.Printed.{fraction_text};
ghost use Rattle.upit_file.specs.Writing as spec;

use counted_devices::ShortLine;
use fixed_worth::{Micros, WrittenNumber, trimmed_fraction};

const MILLION: u64 = 1_000_000;

// The places after the point at the end of the line, and the point where there are some.
fn push_fraction(line: &mut ShortLine, millionths: u64)
    requires below_one { millionths < 10 ^ 6 }
    requires room { length line.old + 46 ≤ 192 }
    ensures { line.new ≡ line.old ++ fraction_text 6 millionths }
{
    if millionths == 0 {
        return;
    }
    let (digits, width) = trimmed_fraction(millionths, 6);
    let number = WrittenNumber::of(u128::from(digits));
    let zeros = width.saturating_sub(number.as_bytes().len());
    let (leading, _) = b"000000".split_at(zeros);
    line.push(b".");
    line.push(leading);
    line.push(number.as_bytes());
}

// The line of a block with its value, without its line feed.
pub(crate) fn record_line(block: u32, value: Micros) -> ShortLine
    ensures { result ≡ spec.record_line block value }
{
    let millionths = value.get();
    let size = millionths.unsigned_abs();
    let mut line = ShortLine::new();
    line.push_number(u128::from(block));
    line.push(b" ");
    if millionths < 0 {
        line.push(b"-");
    }
    line.push_number(u128::from(size / MILLION));
    push_fraction(&mut line, size % MILLION);
    line
}
