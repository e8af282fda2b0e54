//! Tries what is read from settings with every key, of a mill and of several ways, and with what faults other texts are refused.

use crate::texts_and_numbers::prints;
use settings_file::{Key, SettingsFault, WayColumns, read_settings};
use std::alloc::Global;
use std::process::Abort;
use std::test::Fail;

const ALL_KEYS: &[u8] =
    b"# copper\r\nrevenue = 0\r\ncost = 65535\r\ntonnes = 2\r\nfactors = [0, 500, 10_000]\r\nreport = 750\r\noffsets = [[0, 0, 1], [-2147483648, 2147483647, 0x1]]";

// The fault of a text, if any.
fn fault(alloc: Global, text: &[u8]) -> Option<SettingsFault> {
    read_settings(alloc, text).err()
}

// Each text has this fault, if any.
fn have_their_faults(rt: &impl Abort, alloc: Global, rows: &[(&[u8], Option<SettingsFault>)]) {
    for (text, wanted) in rows {
        assert_eq!(rt; fault(alloc, text), *wanted);
    }
}

#[test]
fn every_key(rt: HostRuntime) -> Result<(), Fail> {
    let settings = read_settings(rt.alloc(), ALL_KEYS).ok().ok_or("read")?;
    assert_eq!(rt; settings.revenue(), Some(0));
    assert_eq!(rt; settings.cost(), Some(65_535));
    assert_eq!(rt; settings.tonnes(), Some(2));
    assert!(rt; settings.factors() == Some([0, 500, 10_000].as_slice()));
    assert_eq!(rt; settings.report(), Some(750));
    let offsets = [(0, 0, 1), (-2_147_483_648, 2_147_483_647, 1)];
    assert!(rt; settings.offsets() == Some(offsets.as_slice()));
    Ok(())
}

#[test]
fn keys_of_a_mill(rt: HostRuntime) -> Result<(), Fail> {
    let text = b"revenue = 0\nprocessing = 1\nmining = 65535";
    let settings = read_settings(rt.alloc(), text).ok().ok_or("read")?;
    assert_eq!(rt; settings.processing(), Some(1));
    assert_eq!(rt; settings.mining(), Some(65_535));
    assert!(rt; settings.names_mill() && settings.cost().is_none());
    assert!(rt; settings.says(Key::Mining) && !settings.says(Key::Tonnes));
    Ok(())
}

#[test]
fn costs_beside_a_mill(rt: HostRuntime) {
    let bad = Some(SettingsFault::BadValue(Key::Cost));
    let rows: [(&[u8], Option<SettingsFault>); 7] = [
        (b"cost = 1\nmining = 1", bad),
        (b"revenue = 0\nprocessing = 1\ncost = 2", bad),
        (b"mining = -1\ncost = 1", bad),
        (
            b"revenue = -1\ncost = 1\nmining = 1",
            Some(SettingsFault::BadValue(Key::Revenue)),
        ),
        (
            b"processing = -1\nmining = 65536",
            Some(SettingsFault::BadValue(Key::Processing)),
        ),
        (
            b"mining = 65536\noffsets = 1",
            Some(SettingsFault::BadValue(Key::Offsets)),
        ),
        (b"mining = 1", None),
    ];
    have_their_faults(&rt, rt.alloc(), &rows);
}

#[test]
fn ways_to_treat_blocks(rt: HostRuntime) -> Result<(), Fail> {
    let text =
        b"mining = 4\n[[ways]]\nprocessing = 6\nrevenue = 5\n[[ways]]\nrevenue = 65535\nprocessing = 6";
    let settings = read_settings(rt.alloc(), text).ok().ok_or("read")?;
    let ways = [
        WayColumns {
            revenue: 5,
            processing: 6,
        },
        WayColumns {
            revenue: 65_535,
            processing: 6,
        },
    ];
    assert!(rt; settings.ways() == Some(ways.as_slice()));
    assert!(rt; settings.says(Key::Ways) && !settings.says(Key::Revenue));
    Ok(())
}

#[test]
fn no_documents(rt: HostRuntime) {
    let rows: [(&[u8], Option<SettingsFault>); 7] = [
        (b"= 3", Some(SettingsFault::NotToml)),
        (b"revenue = 1\nrevenue = 1", Some(SettingsFault::NotToml)),
        (
            b"revenue = 9223372036854775808",
            Some(SettingsFault::NotToml),
        ),
        (b"revenue = -1\ncolour =", Some(SettingsFault::NotToml)),
        (b"# \xff", Some(SettingsFault::NotToml)),
        (b"\"revenue\" = 3", None),
        (b"\xef\xbb\xbfrevenue = 3", None),
    ];
    have_their_faults(&rt, rt.alloc(), &rows);
}

#[test]
fn unknown_keys(rt: HostRuntime) {
    let rows: [(&[u8], Option<SettingsFault>); 6] = [
        (b"colour = 1", Some(SettingsFault::UnknownKey)),
        (b"process = 1", Some(SettingsFault::UnknownKey)),
        (b"minings = 1", Some(SettingsFault::UnknownKey)),
        (b"Revenue = 1", Some(SettingsFault::UnknownKey)),
        (b"revenue = -1\nzoo = 1", Some(SettingsFault::UnknownKey)),
        (b"[[a.b]]", Some(SettingsFault::UnknownKey)),
    ];
    have_their_faults(&rt, rt.alloc(), &rows);
}

#[test]
fn bad_numbers(rt: HostRuntime) {
    let revenue = Some(SettingsFault::BadValue(Key::Revenue));
    let rows: [(&[u8], Option<SettingsFault>); 10] = [
        (b"revenue = -1", revenue),
        (b"revenue = 1.0", revenue),
        (b"revenue = 65536", revenue),
        (b"revenue = \"1\"", revenue),
        (b"[revenue]\na = 1", revenue),
        (b"cost = true\nrevenue = []", revenue),
        (
            b"cost = 4294967296\ntonnes = -1",
            Some(SettingsFault::BadValue(Key::Cost)),
        ),
        (
            b"factors = []\ntonnes = 65536",
            Some(SettingsFault::BadValue(Key::Tonnes)),
        ),
        (
            b"offsets = 1\nreport = 10001",
            Some(SettingsFault::BadValue(Key::Report)),
        ),
        (b"report = 10000", None),
    ];
    have_their_faults(&rt, rt.alloc(), &rows);
}

#[test]
fn bad_lists(rt: HostRuntime) {
    let factors = Some(SettingsFault::BadValue(Key::Factors));
    let offsets = Some(SettingsFault::BadValue(Key::Offsets));
    let rows: [(&[u8], Option<SettingsFault>); 13] = [
        (b"factors = []", factors),
        (b"factors = 1000", factors),
        (b"factors = [1, 3, 3]", factors),
        (b"factors = [10001]", factors),
        (b"factors = [-1, 0]", factors),
        (b"factors = [1, 2.5]", factors),
        (
            b"factors = [1, 2]\nreport = -1",
            Some(SettingsFault::BadValue(Key::Report)),
        ),
        (b"factors = [1000]", None),
        (b"offsets = 1", offsets),
        (b"offsets = [1, 2, 3]", offsets),
        (b"offsets = [[1, 2, 3], [1, 2]]", offsets),
        (b"offsets = [[1, 2, 3, 4]]", offsets),
        (b"offsets = [[-2147483649, 0, 1]]", offsets),
    ];
    have_their_faults(&rt, rt.alloc(), &rows);
}

// A text of a piece that is repeated, between a head and a tail.
fn repeated(
    alloc: Global,
    head: &[u8],
    piece: &[u8],
    times: usize,
    tail: &[u8],
) -> Result<Vec<u8>, Fail> {
    let mut text = Vec::from_slice(alloc, head)?;
    for _ in 0..times {
        text.extend_from_slice(piece)?;
    }
    text.extend_from_slice(tail)?;
    Ok(text)
}

#[test]
fn hostile_texts(rt: HostRuntime) -> Result<(), Fail> {
    let rows: [(&[u8], &[u8], &[u8], Option<SettingsFault>); 5] = [
        (b"offsets = [", b"[0, 0, 1],", b"]", None),
        (b"offsets = ", b"[", b"", Some(SettingsFault::NotToml)),
        (b"a", b".a", b"", Some(SettingsFault::NotToml)),
        (b"", b"[[a.b.c]]\n", b"", Some(SettingsFault::UnknownKey)),
        (b"", b"# remark\n\n", b"", None),
    ];
    for (head, piece, tail, wanted) in rows {
        let text = repeated(rt.alloc(), head, piece, 10_000, tail)?;
        assert_eq!(rt; fault(rt.alloc(), text.as_slice()), wanted);
    }
    Ok(())
}

// The factors from 1 on, as many as asked for.
fn counted_factors(alloc: Global, count: u32) -> Result<String, Fail> {
    let mut text = format!(in alloc; "factors = [")?;
    for factor in 0..count {
        text.push_str(format!(in alloc; "{factor},")?.as_str())?;
    }
    text.push_str("]")?;
    Ok(text)
}

#[test]
fn at_most_64_factors(rt: HostRuntime) -> Result<(), Fail> {
    let most = counted_factors(rt.alloc(), 64)?;
    assert_eq!(rt; fault(rt.alloc(), most.as_bytes()), None);
    let more = counted_factors(rt.alloc(), 65)?;
    assert_eq!(rt;
        fault(rt.alloc(), more.as_bytes()),
        Some(SettingsFault::BadValue(Key::Factors))
    );
    Ok(())
}

#[test]
fn printed_faults(rt: HostRuntime) {
    let rows = [
        (SettingsFault::NotToml, "NotToml"),
        (SettingsFault::UnknownKey, "UnknownKey"),
        (SettingsFault::BadValue(Key::Revenue), "BadValue(revenue)"),
        (SettingsFault::BadValue(Key::Cost), "BadValue(cost)"),
        (SettingsFault::Missing(Key::Tonnes), "Missing(tonnes)"),
        (SettingsFault::Missing(Key::Factors), "Missing(factors)"),
        (SettingsFault::BadValue(Key::Report), "BadValue(report)"),
        (SettingsFault::BadValue(Key::Offsets), "BadValue(offsets)"),
        (
            SettingsFault::Missing(Key::Processing),
            "Missing(processing)",
        ),
        (SettingsFault::Missing(Key::Mining), "Missing(mining)"),
        (SettingsFault::Unused(Key::Slopes), "Unused(slopes)"),
        (SettingsFault::Unused(Key::Up), "Unused(up)"),
        (SettingsFault::BadValue(Key::Ways), "BadValue(ways)"),
        (SettingsFault::NoMemory, "NoMemory"),
    ];
    for (fault, text) in rows {
        prints(&rt, rt.alloc(), fault, text);
    }
}
