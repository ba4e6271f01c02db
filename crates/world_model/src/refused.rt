//! Why an event is refused.

/// Why an event did nothing. The causes are judged in this order.
#[derive(Clone, Copy, Debug, PartialEq, Eq)]
pub enum Refused {
    /// The event names no shard of the world.
    NoShard,
    /// The event names no query that was opened.
    NoQuery,
    /// The query was cancelled.
    Closed,
    /// As many queries were opened as may be.
    Many,
    /// The query's front is closed.
    Unfronted,
    /// The query hasn't pinned every shard.
    NotPinned,
    /// The shard has a build.
    Building,
    /// The shard has no build.
    NoBuild,
    /// So many rows of the build aren't placed.
    Unready { left: u64 },
    /// The build stands at another position than the shard, which stands there.
    Moved { shard_at: u64 },
    /// There was no memory.
    NoMemory,
}
