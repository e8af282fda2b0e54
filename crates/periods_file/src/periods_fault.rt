//! Why periods are refused, with the key at fault where there is one, and how each fault is printed.

use crate::keys::PeriodKey;
use std::fmt;

/// What is wrong with periods. The fault that stands first here is answered; and of several keys that are missing or
/// have a bad value the first in the order of [`PeriodKey`].
#[derive(Clone, Copy, Debug, PartialEq, Eq)]
pub enum PeriodsFault {
    /// The text is no TOML document: also where it is no UTF-8, names a key twice, or has a whole number of more than
    /// 64 bits.
    NotToml,
    /// A name of the document's table is none of the keys.
    UnknownKey,
    /// The key's value has a wrong kind or is out of its range.
    BadValue(PeriodKey),
    /// The key isn't there. `multipliers`, `waits` and `lag` may be left out.
    Missing(PeriodKey),
    /// Memory was refused.
    NoMemory,
}

impl fmt::Display for PeriodsFault {
    ghost use Rattle.std.specs.Prelude.{Some};
    ghost use Rattle.periods_file.specs.Periods.{periods_fault_text};

    ghost output = { λ fault. Some (periods_fault_text fault) };

    fn fmt<W: fmt::Write>(&self, f: &mut fmt::Formatter<W>) -> fmt::Result {
        match *self {
            PeriodsFault::NotToml => f.write_str("NotToml"),
            PeriodsFault::UnknownKey => f.write_str("UnknownKey"),
            PeriodsFault::BadValue(key) => {
                let name = key.name();
                write!(f, "BadValue({name})")
            }
            PeriodsFault::Missing(key) => {
                let name = key.name();
                write!(f, "Missing({name})")
            }
            PeriodsFault::NoMemory => f.write_str("NoMemory"),
        }
    }
}
