//! What may happen to a world.

use entry_log::Op;
use part_layout::Layout;
use std::sync::Arc;
use world_parts::Ask;

/// An event: one atomic step of a world. Queries are numbered from 0 in order of opening, shards from 0; of both any number may be
/// named.
#[derive(Drop)]
pub enum Event<const W: usize> {
    /// A session, told by its number, commits an operation.
    Commit { who: u32, op: Op<W> },
    /// A session opens a query at the end of the history.
    Open { who: u32, ask: Ask<W> },
    /// A shard is brought to the front of a query.
    Advance { query: u32, shard: u32 },
    /// A query pins the version of a shard at its front.
    Pin { query: u32, shard: u32 },
    /// The source of a query on a shard works for so many units, at least 1.
    Poll { query: u32, shard: u32, budget: u32 },
    /// The next hit of a query is given.
    Give { query: u32 },
    /// A query is cancelled.
    Cancel { query: u32 },
    /// A build of a shard in a layout begins.
    BuildStart { shard: u32, layout: Arc<Layout> },
    /// A build places so many rows.
    BuildStep { shard: u32, rows: u32 },
    /// A build follows the history to its end.
    Follow { shard: u32 },
    /// A build gives its shard the layout.
    Swap { shard: u32 },
}
