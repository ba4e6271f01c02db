//! Why there is no new desk.

/// Why there is no new desk.
#[derive(Clone, Copy, Debug, PartialEq, Eq)]
pub enum DeskFault {
    /// All `SESSIONS_MOST` numbers are out.
    Numbers,
    /// There is no memory for its pins.
    NoMemory,
}
