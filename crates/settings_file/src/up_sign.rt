//! Which way is up, as settings say it.

/// The sign of a difference of z that leads up.
#[derive(Clone, Copy, Debug, PartialEq, Eq)]
pub enum UpSign {
    /// A greater z is higher.
    Plus,
    /// A smaller z is higher.
    Minus,
}
