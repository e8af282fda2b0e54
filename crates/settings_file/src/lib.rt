//! Reads settings: the TOML text that says which columns of a block model hold revenue, cost and tonnes, or in place of
//! cost a mill's charges or those of several ways to treat blocks, at which factors shells are drawn, and which offsets
//! a slope has, or that of each region.
//!
//! It stands on `toml_values`, which has the text as a table of values, and on `fixed_worth` for the limits.
//!
//! Upward it promises: [`read_settings`] gives exactly what `specs/Settings` says that the text denotes, or its first
//! fault. A document is what `toml`'s own grammar says; `specs/Keys` has the keys and `specs/Values` what a value at
//! one of them may be. Which keys a command needs or leaves unused is the command's matter: it answers
//! [`SettingsFault::Missing`] or [`SettingsFault::Unused`].
//!
//! An example: settings of a mill, of which column 1 has what processing costs, and column 65,535 what mining does; and
//! two texts that [`read_settings`] refuses. Tried in `lower_tests/src/settings_texts.rt`.
//!
//! ```rust
//! let text = b"revenue = 0\nprocessing = 1\nmining = 65535";
//! let settings = read_settings(rt.alloc(), text).ok().ok_or("read")?;
//! assert_eq!(rt; settings.processing(), Some(1));
//! assert_eq!(rt; settings.mining(), Some(65_535));
//! assert!(rt; settings.names_mill() && settings.cost().is_none());
//! assert!(rt; settings.says(Key::Mining) && !settings.says(Key::Tonnes));
//!
//! let rows: [(&[u8], Option<SettingsFault>); 6] = [
//!     (b"colour = 1", Some(SettingsFault::UnknownKey)),
//!     (b"Revenue = 1", Some(SettingsFault::UnknownKey)),
//! ];
//! have_their_faults(&rt, rt.alloc(), &rows);
//! ```
#![tactic(auto)]

mod arrays;
mod keys;
mod reading;
mod settings;
mod settings_fault;
mod up_sign;
mod values;
mod ways;

pub use keys::Key;
pub use reading::read_settings;
pub use settings::Settings;
pub use settings_fault::SettingsFault;
pub use up_sign::UpSign;
pub use ways::{MOST_WAYS, WayColumns};
