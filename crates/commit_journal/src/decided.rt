//! What became of an operation.

use entry_log::Decision;

/// The decision on an operation, and at which position of the history it was made.
#[derive(Clone, Copy, Debug, PartialEq, Eq)]
pub struct Decided {
    pub decision: Decision,
    /// The number of the new entry, counted from 1, or else how many entries there are.
    pub position: u64,
}
