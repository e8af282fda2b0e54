//! Why settings are refused, told on standard error where the line of the fault doesn't say it.

use command_line::Escaped;
use settings_file::{Key, MOST_WAYS, Settings, SettingsFault, read_settings};
use std::alloc::Global;
use std::sync::atomic::{AtomicU64, Ordering};
use toml::Table;

// The most bytes of settings that are kept: more are hardly written by hand.
const MOST_KEPT: usize = 1 << 20;

const KEYS: [Key; 12] = [
    Key::Revenue,
    Key::Cost,
    Key::Tonnes,
    Key::Factors,
    Key::Report,
    Key::Offsets,
    Key::Processing,
    Key::Mining,
    Key::Slopes,
    Key::Region,
    Key::Up,
    Key::Ways,
];

/// What was read of settings so far, and where the number of offsets that they list is put.
#[derive(Drop)]
pub struct KeptText<'a> {
    bytes: Vec<u8>,
    is_whole: bool,
    offsets: Option<&'a AtomicU64>,
    are_slopes_used: bool,
}

impl<'a> KeptText<'a> {
    /// Nothing was read.
    pub fn new(alloc: Global, offsets: Option<&'a AtomicU64>) -> KeptText<'a> {
        KeptText {
            bytes: Vec::new(alloc),
            is_whole: true,
            offsets,
            are_slopes_used: false,
        }
    }

    /// Nothing was read of settings whose slopes are used.
    pub fn of_slopes(alloc: Global) -> KeptText<'a> {
        KeptText {
            bytes: Vec::new(alloc),
            is_whole: true,
            offsets: None,
            are_slopes_used: true,
        }
    }

    /// Keeps further bytes, if there is room and memory for them.
    pub fn keep(&mut self, bytes: &[u8]) {
        let is_kept = self.is_whole
            && self.bytes.len() <= MOST_KEPT
            && self.bytes.extend_from_slice(bytes).is_ok();
        self.is_whole = is_kept;
    }

    /// Tells what is wrong with the whole text of the settings with this name, if it is no TOML text, has a key that
    /// settings haven't or one that goes unused, or its ways are none. The engine meets the same fault, and answers it.
    /// Where a slope is asked for, it notes the offsets instead.
    pub fn tell<R: Eprint>(&self, rt: &R, alloc: Global, name: &str) {
        if !self.is_whole {
            return;
        }
        match read_settings(alloc, &self.bytes) {
            Err(SettingsFault::NotToml) => tell_line(rt, alloc, name, &self.bytes),
            Err(SettingsFault::UnknownKey) => tell_key(rt, alloc, name, &self.bytes),
            Err(SettingsFault::BadValue(Key::Ways)) => tell_ways(rt, name),
            Err(_) => {}
            Ok(settings) => match self.offsets {
                _ if tell_replaced(rt, name, &settings) => {}
                Some(number) => number.store(most_offsets(&settings), Ordering::SeqCst),
                None if self.are_slopes_used => tell_offsets_alone(rt, name, &settings),
                None => tell_unused(rt, name, &settings),
            },
        }
    }
}

// How many offsets settings list, in the region that has most where they name slopes by region.
fn most_offsets(settings: &Settings) -> u64 {
    let mut most = 0;
    if let Some(listed) = settings.offsets() {
        most = listed.len();
    }
    if let Some(slopes) = settings.slopes() {
        for listed in slopes {
            most = most.max(listed.len());
        }
    }
    most as u64
}

// Tells what ways have to be.
fn tell_ways<R: Eprint>(rt: &R, name: &str) {
    let name = Escaped { text: name };
    let _ = rt.eprintln(format_args!(
        "reason: ways in {name} have to be an array of 1 to {MOST_WAYS} tables with a column each of revenue and of processing, as ways = [{{ revenue = 0, processing = 3 }}]"
    ));
}

// Tells the first key in whose place ways stand, and says whether there is one.
fn tell_replaced<R: Eprint>(rt: &R, name: &str, settings: &Settings) -> bool {
    if !settings.says(Key::Ways) {
        return false;
    }
    for key in [Key::Revenue, Key::Cost, Key::Processing] {
        if settings.says(key) {
            let name = Escaped { text: name };
            let key = key.name();
            let _ = rt.eprintln(format_args!(
                "reason: {name} has the key {key} beside ways, and each way names its own columns: leave out {key}, or ways"
            ));
            return true;
        }
    }
    false
}

// Tells the first key of slopes by region, of which a command with a precedence file makes no use.
fn tell_unused<R: Eprint>(rt: &R, name: &str, settings: &Settings) {
    for key in [Key::Slopes, Key::Region, Key::Up] {
        if settings.says(key) {
            let name = Escaped { text: name };
            let key = key.name();
            let _ = rt.eprintln(format_args!(
                "reason: {name} has the key {key}, and who rests on whom is said by --prec: leave out --prec, or slopes, region and up"
            ));
            return;
        }
    }
}

// Tells that settings have the offsets of `pit slopes`, where slopes are needed.
fn tell_offsets_alone<R: Eprint>(rt: &R, name: &str, settings: &Settings) {
    if settings.says(Key::Offsets) && !settings.says(Key::Slopes) {
        let name = Escaped { text: name };
        let _ = rt.eprintln(format_args!(
            "reason: {name} has offsets, which pit slopes reads, and no slopes: write the same list within one more pair of brackets, as slopes"
        ));
    }
}

// Tells in which line a text is no TOML.
fn tell_line<R: Eprint>(rt: &R, alloc: Global, name: &str, text: &[u8]) {
    let Err(error) = toml::table_from_slice(alloc, text) else {
        return;
    };
    if let Some(place) = error.span() {
        let mut line = 1u64;
        for byte in text.iter().take(place.start) {
            if *byte == b'\n' {
                line = line.saturating_add(1);
            }
        }
        let name = Escaped { text: name };
        let why = error.message();
        let _ = rt.eprintln(format_args!("reason: line {line} of {name} isn't TOML: {why}"));
    }
}

// Tells the first name of a table that is no key of settings.
fn tell_key<R: Eprint>(rt: &R, alloc: Global, name: &str, text: &[u8]) {
    let Ok(table) = toml::table_from_slice(alloc, text) else {
        return;
    };
    if let Some(key) = unknown_key(&table) {
        let name = Escaped { text: name };
        let key = Escaped { text: key };
        let _ = rt.eprintln(format_args!(
            "reason: {name} has the key {key}, and settings have revenue, cost, processing, mining, tonnes, factors, report, offsets, slopes, region, up and ways"
        ));
    }
}

fn unknown_key(table: &Table) -> Option<&str> {
    for name in table.keys() {
        if !is_key(name.as_str()) {
            return Some(name.as_str());
        }
    }
    None
}

fn is_key(name: &str) -> bool {
    for key in KEYS {
        if name == key.name() {
            return true;
        }
    }
    false
}
