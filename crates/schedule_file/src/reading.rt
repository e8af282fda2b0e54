//! Reads the text of a schedule: gives the period and the way of each block of the model, or the first fault of the
//! text.

ghost use Rattle.std.specs.Prelude.{◌≡◌, ◌≤◌, true, false, length, slice_set, None, Some, MatchResult, option_map};
ghost use Rattle.fixed_worth.specs.Text.{fields_of};
ghost use Rattle.schedule_file.specs.Records as spec;
ghost use Rattle.schedule_file.specs.Records.{AreEntries, UnlessMemory, by_list, entries_after, entry_of, fault_of, number_fault, number_of, reads_if_some, record_fault};
ghost use Rattle.schedule_file.specs.declared.schedule_fault.ScheduleFault.TheVariants as fault;

use crate::ScheduleFault;
use crate::entry::Entry;
use crate::entry_words::{block_word, is_passed, period_word, way_word};
use fixed_worth::{LINE_BYTES, Lines, MOST_BLOCKS, whole};
use std::alloc::Global;

// How many blocks, periods and ways there are.
#[derive(Clone, Copy)]
struct Counts {
    blocks: u32,
    periods: u32,
    ways: u32,
}

// The way that a line names, if it names one.
fn way_in(line: &[u8], number: u64) -> Result<Option<u64>, ScheduleFault>
    requires { length line.now ≤ LINE_BYTES }
    ensures { MatchResult result
        (λ way. (reads_if_some (spec.way_word (fields_of line.now)) ≡ true)
        × (way ≡ option_map number_of (spec.way_word (fields_of line.now))))
        (λ e. (reads_if_some (spec.way_word (fields_of line.now)) ≡ false)
        × (e ≡ fault.Number number)) }
{
    match way_word(line) {
        Some(word) => match whole(word) {
            Ok(way) => Ok(Some(way)),
            Err(_) => Err(ScheduleFault::Number(number)),
        },
        None => Ok(None),
    }
}

// Whether a way that is named is none of so many, and not waste.
fn is_unknown_way(ways: u32, way: Option<u64>) -> bool
    ensures { result ≡ spec.is_unknown_way ways way }
{
    match way {
        Some(way) => way > ways as u64,
        None => false,
    }
}

// A way of few.
fn narrow(way: Option<u64>, ways: u32) -> Option<u32>
    requires { spec.is_unknown_way ways way ≡ false }
    ensures { result ≡ way }
{
    match way {
        Some(way) => Some(way as u32),
        None => None,
    }
}

// Notes the period and the way of a block.
fn put_entry(
    schedule: &mut [Entry],
    block: u64,
    period: u64,
    way: Option<u64>,
    counts: Counts,
    number: u64,
) -> Result<(), ScheduleFault>
    requires { length schedule.old ≡ counts.blocks }
    ensures { MatchResult result
        (λ _.
        (number_fault counts.blocks counts.periods counts.ways
        (by_list counts.periods schedule.old) number block period way ≡ None)
        × (schedule.new ≡ slice_set schedule.old block (entry_of period way)))
        (λ e. number_fault counts.blocks counts.periods counts.ways
        (by_list counts.periods schedule.old) number block period way ≡ Some e) }
{
    if block >= counts.blocks as u64 {
        return Err(ScheduleFault::UnknownBlock(number));
    }
    if period >= counts.periods as u64 {
        return Err(ScheduleFault::UnknownPeriod(number));
    }
    if is_unknown_way(counts.ways, way) {
        return Err(ScheduleFault::UnknownWay(number));
    }
    if schedule[block as usize].period < counts.periods {
        return Err(ScheduleFault::Repeated(number));
    }
    schedule[block as usize] = Entry {
        period: period as u32,
        way: narrow(way, counts.ways),
    };
    Ok(())
}

// Reads a line, and notes the period and the way of its block.
fn read_line(
    schedule: &mut [Entry],
    line: &[u8],
    counts: Counts,
    number: u64,
) -> Result<(), ScheduleFault>
    requires short { length line.now ≤ LINE_BYTES }
    requires all { length schedule.old ≡ counts.blocks }
    ensures { MatchResult result
        (λ _.
        (record_fault counts.blocks counts.periods counts.ways
        (by_list counts.periods schedule.old) number
        (fields_of line.now) ≡ None)
        × (schedule.new ≡ entries_after counts.ways (fields_of line.now) schedule.old))
        (λ e. record_fault counts.blocks counts.periods counts.ways
        (by_list counts.periods schedule.old) number
        (fields_of line.now) ≡ Some e) }
{
    if is_passed(line) {
        return Ok(());
    }
    let block = match block_word(line, counts.ways) {
        Some(word) => word,
        None => return Err(ScheduleFault::Text(number)),
    };
    let period = match period_word(line, counts.ways) {
        Some(word) => word,
        None => return Err(ScheduleFault::Text(number)),
    };
    let block = match whole(block) {
        Ok(block) => block,
        Err(_) => return Err(ScheduleFault::Number(number)),
    };
    let period = match whole(period) {
        Ok(period) => period,
        Err(_) => return Err(ScheduleFault::Number(number)),
    };
    match way_in(line, number) {
        Ok(way) => put_entry(schedule, block, period, way, counts, number),
        Err(fault) => Err(fault),
    }
}

/// The period and the way of each of n blocks, at most 2^24, by a schedule over so many periods where there are so many
/// ways to treat a block beside waste; the number of periods for a block that isn't dug.
///
/// Each line names a block and its period, both counted from 0, and where there are ways it may name one: they are
/// counted from 0, and their number is that of waste. Passed over are lines without a field, and those whose first
/// field begins with `%`. The lines may come in any order.
///
/// # Errors
/// That of the first faulty line, and of its faults the first in this order: `Text` for more than 65,536 bytes or
/// another number of fields, `Number`, `UnknownBlock`, `UnknownPeriod`, `UnknownWay`, `Repeated`. `NoMemory` where
/// memory for the entries is refused.
pub fn read_schedule(
    alloc: Global,
    text: &[u8],
    n: u32,
    periods: u32,
    ways: u32,
) -> Result<Vec<Entry>, ScheduleFault>
    requires { n ≤ MOST_BLOCKS }
    ensures { MatchResult result
        (λ schedule. (fault_of n periods ways text.now ≡ None)
        × AreEntries n periods ways text.now schedule.items)
        (λ e. UnlessMemory e (fault_of n periods ways text.now ≡ Some e)) }
{
    let nothing = Entry {
        period: periods,
        way: None,
    };
    let counts = Counts {
        blocks: n,
        periods,
        ways,
    };
    let mut schedule = vec![in alloc; nothing; n as usize].map_err(|_| ScheduleFault::NoMemory)?;
    let mut lines = Lines::new(text);
    loop {
        match lines.next_line() {
            Ok(Some(line)) => {
                let number = lines.number();
                read_line(schedule.as_mut_slice(), line, counts, number)?;
            }
            Ok(None) => return Ok(schedule),
            Err(_) => return Err(ScheduleFault::Text(lines.number() + 1)),
        }
    }
}
