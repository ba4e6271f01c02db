//! What a session tells of itself once it has ended.

use open_session::LayoutFrom;

/// How a session ended.
#[derive(Clone, Copy, Debug, PartialEq, Eq)]
pub enum Status {
    /// The input was read to its end, or to `quit`.
    Done,
    /// A read failed.
    ReadFault,
    /// A write failed.
    WriteFault,
    /// There was no memory to begin with.
    NoMemory,
    /// The input is longer than it may be.
    InputLimit,
}

/// What a session tells of itself: how it ended, how many lines it answered, at most the greatest u64, the position of the last of
/// them, and the layouts that its queries pinned. These are in the order of the queries, and for one query of the shards: one for
/// each shard of the first, and then each where a query pinned another layout than the one before.
#[derive(Drop)]
pub struct Report {
    pub status: Status,
    pub requests: u64,
    pub position: u64,
    pub layouts: Vec<LayoutFrom>,
}
