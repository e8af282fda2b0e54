//! Tries how texts are cut into lines and fields, how numbers are read or refused, and how amounts and
//! faults are printed.

use blocks_file::BlocksFault;
use closure_net::NetFault;
use counted_devices::{InputFault, WriteFault};
use fixed_worth::NumberFault::{NotANumber, TooLarge, TooLong};
use fixed_worth::{
    Field, Fields, Lines, Micros, MicrosTotal, Nanos, NumberFault, TextFault, WrittenNumber, laws,
    plain_signed, signed_whole, whole,
};
use prec_file::{PrecFault, PrecWriteFault, RestsFault};
use slope::SlopeFault;
use slope_offsets::PatternFault;
use std::alloc::Global;
use std::fmt::{Debug, Display};
use std::process::Abort;
use std::test::Fail;
use upit_file::UpitFault;

// Fails the test where they differ. A call of it costs the proof less than the assertion in its place.
fn equal<T: PartialEq + Debug + Copy>(rt: &impl Abort, got: T, wanted: T) {
    assert_eq!(rt; got, wanted);
}

// Fails the test where they differ, and names the row of a table that begins with this text.
fn equal_at<T: PartialEq + Debug + Copy>(rt: &impl Abort, text: &str, got: T, wanted: T) {
    assert_eq!(rt; got, wanted, "at {text}");
}

// Something is printed as this text.
pub fn prints<T: Display + Copy>(rt: &impl Abort, alloc: Global, shown: T, text: &str) {
    let printed = shown.to_string(alloc).expect(rt, "room");
    equal(rt, printed.as_str(), text);
}

#[test]
fn whole_numbers(rt: HostRuntime) {
    for (text, want) in &[
        ("0", Ok(0)),
        ("18446744073709551615", Ok(u64::MAX)),
        ("18446744073709551616", Err(TooLarge)),
        ("000000000000000000000000000000000000007", Ok(7)),
        ("999999999999999999999999999999999999999", Err(TooLarge)),
        ("0000000000000000000000000000000000000007", Err(TooLong)),
        ("", Err(NotANumber)),
        ("+0", Err(NotANumber)),
        ("-0", Err(NotANumber)),
        ("1 ", Err(NotANumber)),
    ] {
        equal_at(&rt, text, whole(text.as_bytes()), *want);
    }
}

#[test]
fn signed_numbers(rt: HostRuntime) {
    for (text, want) in &[
        ("-0", Ok(0)),
        ("+0", Ok(0)),
        ("-007", Ok(-7)),
        ("170141183460469231731687303715884105727", Ok(i128::MAX)),
        ("-170141183460469231731687303715884105728", Ok(i128::MIN)),
        ("170141183460469231731687303715884105728", Err(TooLarge)),
        ("-170141183460469231731687303715884105729", Err(TooLarge)),
        ("+000000000000000000000000000000000000005", Ok(5)),
        ("+0000000000000000000000000000000000000005", Err(TooLong)),
        ("", Err(NotANumber)),
        ("-", Err(NotANumber)),
        ("--1", Err(NotANumber)),
    ] {
        equal_at(&rt, text, signed_whole(text.as_bytes()), *want);
    }
}

#[test]
fn plain_numbers(rt: HostRuntime) {
    for (text, want) in &[
        ("0", Ok(0)),
        ("5", Ok(5)),
        ("-50", Ok(-50)),
        ("170141183460469231731687303715884105727", Ok(i128::MAX)),
        ("-170141183460469231731687303715884105728", Ok(i128::MIN)),
        ("170141183460469231731687303715884105728", Err(TooLarge)),
        (
            "100000000000000000000000000000000000000",
            Ok(100000000000000000000000000000000000000),
        ),
        ("1000000000000000000000000000000000000000", Err(TooLong)),
        ("0000000000000000000000000000000000000000", Err(NotANumber)),
        ("", Err(NotANumber)),
        ("-", Err(NotANumber)),
        ("-0", Err(NotANumber)),
        ("+0", Err(NotANumber)),
        ("+5", Err(NotANumber)),
        ("05", Err(NotANumber)),
        ("-05", Err(NotANumber)),
        ("5x", Err(NotANumber)),
    ] {
        equal_at(&rt, text, plain_signed(text.as_bytes()), *want);
    }
}

fn millionths_in(text: &[u8]) -> Result<i64, NumberFault> {
    match Micros::from_text(text) {
        Ok(amount) => Ok(amount.get()),
        Err(fault) => Err(fault),
    }
}

#[test]
fn decimals(rt: HostRuntime) {
    for (text, want) in &[
        ("0.0000005", Ok(1)),
        ("-0.0000005", Ok(-1)),
        ("1e-7", Ok(0)),
        ("+.5", Ok(500_000)),
        ("5.", Ok(5_000_000)),
        ("1e007", Ok(10_000_000_000_000)),
        ("1000000000000", Ok(1_000_000_000_000_000_000)),
        ("1000000000000.0000004", Ok(1_000_000_000_000_000_000)),
    ] {
        equal_at(&rt, text, millionths_in(text.as_bytes()), *want);
    }
}

#[test]
fn refused_decimals(rt: HostRuntime) {
    for (text, want) in &[
        ("1000000000000.000001", Err(TooLarge)),
        ("1e40", Err(TooLarge)),
        ("1e41", Err(TooLong)),
        ("1234567890123456789012345678901234567", Err(TooLong)),
        ("", Err(NotANumber)),
        (".", Err(NotANumber)),
        ("-", Err(NotANumber)),
        ("1e", Err(NotANumber)),
        ("0x1", Err(NotANumber)),
        ("1.2.3", Err(NotANumber)),
    ] {
        equal_at(&rt, text, millionths_in(text.as_bytes()), *want);
    }
}

#[test]
fn amounts_in_range(rt: HostRuntime) {
    assert!(rt; Micros::new(1_000_000_000_000_000_000).is_some());
    assert!(rt; Micros::new(-1_000_000_000_000_000_000).is_some());
    assert!(rt; Micros::new(1_000_000_000_000_000_001).is_none());
    assert!(rt; Micros::new(-1_000_000_000_000_000_001).is_none());
}

#[test]
fn printed_amounts(rt: HostRuntime) -> Result<(), Fail> {
    let alloc = rt.alloc();
    prints(&rt, alloc, Nanos(-1_500_000_000), "-1.5");
    prints(&rt, alloc, Nanos(0), "0");
    prints(&rt, alloc, Nanos(1), "0.000000001");
    prints(&rt, alloc, Nanos(-7_000_000_000), "-7");
    let least = "-170141183460469231731687303715.884105728";
    prints(&rt, alloc, Nanos(i128::MIN), least);
    let total = MicrosTotal(10_000_000_000_000_000_001);
    prints(&rt, alloc, total, "10000000000000.000001");
    let half = Micros::new(-500_000).ok_or("half a unit is an amount")?;
    prints(&rt, alloc, half, "-0.5");
    Ok(())
}

#[test]
fn digits_of_numbers(rt: HostRuntime) {
    let mut digits = WrittenNumber::of(10);
    equal(&rt, digits.as_bytes(), b"10".as_slice());
    for (n, text) in &[
        (0, "0"),
        (u64::MAX as u128, "18446744073709551615"),
        (u64::MAX as u128 + 1, "18446744073709551616"),
        (u128::MAX, "340282366920938463463374607431768211455"),
        (1_060, "1060"),
    ] {
        digits.set(*n);
        equal(&rt, digits.as_bytes(), text.as_bytes());
    }
}

#[test]
fn printed_faults(rt: HostRuntime) {
    prints(&rt, rt.alloc(), NotANumber, "NotANumber");
    prints(&rt, rt.alloc(), TooLong, "TooLong");
    prints(&rt, rt.alloc(), TooLarge, "TooLarge");
    prints(&rt, rt.alloc(), TextFault::LineTooLong, "LineTooLong");
    prints(&rt, rt.alloc(), InputFault::Device, "Device");
    prints(&rt, rt.alloc(), InputFault::InputTooLong, "InputTooLong");
    prints(&rt, rt.alloc(), InputFault::NoMemory, "NoMemory");
    prints(&rt, rt.alloc(), WriteFault::Device, "Device");
}

#[test]
fn printed_faults_of_files(rt: HostRuntime) {
    let alloc: Global = rt.alloc();
    prints(&rt, alloc, BlocksFault::Text(4), "Text(4)");
    prints(&rt, alloc, BlocksFault::NoMemory, "NoMemory");
    prints(&rt, alloc, PrecFault::Text(4), "Text(4)");
    prints(&rt, alloc, PrecFault::NoMemory, "NoMemory");
    let unknown = RestsFault::UnknownBlock(2);
    prints(&rt, alloc, unknown, "UnknownBlock(2)");
    prints(&rt, alloc, PrecWriteFault::TooWide(3), "TooWide(3)");
    prints(&rt, alloc, PrecWriteFault::Device, "Device");
    prints(&rt, alloc, UpitFault::WrongBlocks(4), "WrongBlocks(4)");
    prints(&rt, alloc, UpitFault::NoMemory, "NoMemory");
}

#[test]
fn printed_faults_of_slopes_and_nets(rt: HostRuntime) {
    let alloc: Global = rt.alloc();
    prints(&rt, alloc, PatternFault::NotUpward(1), "NotUpward(1)");
    prints(&rt, alloc, PatternFault::TooMany, "TooMany");
    prints(&rt, alloc, PatternFault::NoMemory, "NoMemory");
    prints(&rt, alloc, SlopeFault::SamePlace(0, 1), "SamePlace(0, 1)");
    prints(&rt, alloc, SlopeFault::TooMany, "TooMany");
    prints(&rt, alloc, SlopeFault::NoMemory, "NoMemory");
    prints(&rt, alloc, NetFault::TooLarge, "TooLarge");
}

// The next line, and the number of lines by then.
fn next_is(
    rt: &impl Abort,
    lines: &mut Lines,
    line: Result<Option<&[u8]>, TextFault>,
    number: u64,
) {
    equal(rt, lines.next_line(), line);
    equal(rt, lines.number(), number);
}

#[test]
fn lines_of_a_text(rt: HostRuntime) {
    let mut lines = Lines::new(b"one\n\ntwo\r\nend");
    equal(&rt, lines.number(), 0);
    next_is(&rt, &mut lines, Ok(Some(b"one")), 1);
    next_is(&rt, &mut lines, Ok(Some(b"")), 2);
    next_is(&rt, &mut lines, Ok(Some(b"two\r")), 3);
    next_is(&rt, &mut lines, Ok(Some(b"end")), 4);
    next_is(&rt, &mut lines, Ok(None), 4);
}

#[test]
fn a_line_too_long(rt: HostRuntime) -> Result<(), Fail> {
    let longer = vec![in rt.alloc(); b'a'; 65537]?;
    let mut lines = Lines::new(&longer);
    next_is(&rt, &mut lines, Err(TextFault::LineTooLong), 0);
    next_is(&rt, &mut lines, Err(TextFault::LineTooLong), 0);
    Ok(())
}

fn next_field_is(rt: &impl Abort, fields: &mut Fields, text: &[u8], place: u32) {
    equal(rt, fields.next(), Some(Field { text, place }));
}

#[test]
fn fields_of_a_line(rt: HostRuntime) {
    let mut fields = Fields::new(b"  a:bc\td \r");
    next_field_is(&rt, &mut fields, b"a", 2);
    next_field_is(&rt, &mut fields, b"bc", 4);
    next_field_is(&rt, &mut fields, b"d", 7);
    equal(&rt, fields.next(), None);
    equal(&rt, fields.next(), None);
}

#[test]
fn numbers_of_a_line(rt: HostRuntime) {
    let line = b" 12:x 18446744073709551616\t12345678 00000000000000000007 1234567\r";
    let mut fields = Fields::new(line);
    for want in &[
        Ok(12),
        Err(NotANumber),
        Err(TooLarge),
        Ok(12_345_678),
        Ok(7),
        Ok(1_234_567),
    ] {
        equal(&rt, fields.next_whole(), Some(*want));
    }
    equal(&rt, fields.next_whole(), None);
}

#[test]
fn laws_can_be_named() {
    laws::lines_make_the_text(b"one\n");
    laws::fields_are_longest_runs(b"a b");
    laws::plain_numbers_have_one_spelling(b"-5");
    laws::printed_numbers_are_plain(-5);
}
