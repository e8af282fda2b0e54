//! Why settings are refused, with the key at fault where there is one, and how each fault is printed.

use crate::keys::Key;
use std::fmt;

/// What is wrong with settings. The fault that stands first here is answered, and of several keys with a bad value the
/// first in the order of [`Key`].
#[derive(Clone, Copy, Debug, PartialEq, Eq)]
pub enum SettingsFault {
    /// The text is no TOML document: also where it is no UTF-8, names a key twice, or has a whole number of more than
    /// 64 bits.
    NotToml,
    /// A name of the document's table is none of the keys.
    UnknownKey,
    /// The key's value has a wrong kind or is out of its range.
    BadValue(Key),
    /// A key is there of which the command makes no use, though it matters: what the key says would go unheard. The
    /// reader never answers this.
    Unused(Key),
    /// A key that the command needs isn't there. The reader never answers this.
    Missing(Key),
    /// Memory was refused.
    NoMemory,
}

impl fmt::Display for SettingsFault {
    ghost use Rattle.std.specs.Prelude.{Some};
    ghost use Rattle.settings_file.specs.Settings.{settings_fault_text};

    ghost output = { λ fault. Some (settings_fault_text fault) };

    fn fmt<W: fmt::Write>(&self, f: &mut fmt::Formatter<W>) -> fmt::Result {
        match *self {
            SettingsFault::NotToml => f.write_str("NotToml"),
            SettingsFault::UnknownKey => f.write_str("UnknownKey"),
            SettingsFault::BadValue(key) => {
                let name = key.name();
                write!(f, "BadValue({name})")
            }
            SettingsFault::Unused(key) => {
                let name = key.name();
                write!(f, "Unused({name})")
            }
            SettingsFault::Missing(key) => {
                let name = key.name();
                write!(f, "Missing({name})")
            }
            SettingsFault::NoMemory => f.write_str("NoMemory"),
        }
    }
}
