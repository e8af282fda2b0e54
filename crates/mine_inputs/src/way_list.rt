//! The columns of a few ways to treat blocks, held in a place of their own and without taking memory.

ghost use Rattle.std.specs.Prelude.{◌≡◌, ◌+◌, ◌≤◌, [], ◌++◌, length};

use settings_file::{MOST_WAYS, WayColumns};
use std::marker::Model;

/// The columns of at most [`MOST_WAYS`] ways to treat blocks.
#[derive(Drop)]
pub struct WayList {
    ways: [WayColumns; MOST_WAYS],
    count: usize,
}

impl Model for WayList {
    ghost use Rattle.std.specs.Prelude.{◌≤◌, List, take};
    ghost use Rattle.settings_file.specs.declared.ways.WayColumns.{WayColumns};

    ghost Value = { List WayColumns };

    ghost view = { λ l. take l.count l.ways };

    ghost invariant = { λ l. l.count ≤ 8 };
}

impl WayList {
    /// These ways.
    pub(crate) fn of(ways: &[WayColumns]) -> WayList
        requires { length ways.now ≤ MOST_WAYS }
        ensures { result ≡ ways.now }
    {
        let mut list = WayList::none();
        list.push(ways);
        list
    }

    // No way.
    fn none() -> WayList
        ensures { result ≡ [] }
    {
        let nothing = WayColumns {
            revenue: 0,
            processing: 0,
        };
        WayList {
            ways: [nothing; MOST_WAYS],
            count: 0,
        }
    }

    // Puts these ways after those that are held.
    fn push(&mut self, ways: &[WayColumns])
        requires { length self.old + length ways.now ≤ MOST_WAYS }
        ensures { self.new ≡ self.old ++ ways.now }
    {
        let end = self.count + ways.len();
        let all = &mut self.ways[..];
        all[self.count..end].copy_from_slice(ways);
        self.count = end;
    }

    /// The ways as a slice.
    pub(crate) fn as_slice(&self) -> &[WayColumns]
        ensures is { result.now ≡ self.now }
        ensures few { length result.now ≤ MOST_WAYS }
    {
        let (ways, _) = self.ways.split_at(self.count);
        ways
    }
}
