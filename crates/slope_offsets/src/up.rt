//! The direction along the third axis that leads up: that of rising z, or that of falling z.

/// The direction along the third axis that leads up.
#[derive(Clone, Copy, Debug, PartialEq, Eq)]
pub enum Up {
    /// A greater z is higher.
    PlusZ,
    /// A smaller z is higher, as where z is a depth or counts levels from the top.
    MinusZ,
}
