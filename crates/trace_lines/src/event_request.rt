//! What a line of a trace asks.

ghost use Rattle.std.specs.Prelude.{◌≡◌, ℕ};
ghost use Rattle.trace_lines.specs.AnswerTexts.{subject};
ghost use Rattle.trace_lines.specs.EventRequests.{event_of};

use entry_log::Op;
use gph_codes::Code;
use part_layout::Layout;
use std::sync::Arc;

/// An event of a world. Queries are numbered in the order of their openings, from 0.
#[derive(Drop)]
pub enum EventRequest<const W: usize> {
    /// A session commits an operation.
    Commit { who: u32, op: Op<W> },
    /// A session opens a query for all codes at most `tau` positions away.
    OpenRange { who: u32, tau: u32, code: Code<W> },
    /// A session opens a query for the `k` rows that come first, by distance and then by key.
    OpenNear { who: u32, k: u32, code: Code<W> },
    /// A shard is brought to a query's front.
    Advance { query: u32, shard: u32 },
    /// A query pins a shard at its front.
    Pin { query: u32, shard: u32 },
    /// A query's source on a shard is polled, for so many steps at most.
    Poll { query: u32, shard: u32, budget: u32 },
    /// A query's next hit is asked for.
    Give { query: u32 },
    /// A query is cancelled.
    Cancel { query: u32 },
    /// A build of a shard begins.
    BuildStart { shard: u32, layout: Arc<Layout> },
    /// A build places so many rows at most.
    BuildStep { shard: u32, rows: u32 },
    /// A build follows the history to its end.
    Follow { shard: u32 },
    /// A build gives its shard its layout.
    Swap { shard: u32 },
}

impl<const W: usize> EventRequest<W> {
    /// The number that stands in the event's answer for what it is about: the key of a commit, the query of a pin, a hit or a
    /// cancellation, else the shard; and 0 where the answer has none.
    pub fn subject(&self) -> u64
        ensures { (bits : ℕ) → result ≡ subject (event_of bits self.now) }
    {
        match self {
            EventRequest::Commit {
                op: Op::Add { key, .. },
                ..
            } => *key,
            EventRequest::Commit {
                op: Op::Delete { key },
                ..
            } => *key,
            EventRequest::OpenRange { .. }
            | EventRequest::OpenNear { .. }
            | EventRequest::Poll { .. } => 0,
            EventRequest::Pin { query, .. }
            | EventRequest::Give { query }
            | EventRequest::Cancel { query } => u64::from(*query),
            EventRequest::Advance { shard, .. }
            | EventRequest::BuildStart { shard, .. }
            | EventRequest::BuildStep { shard, .. }
            | EventRequest::Follow { shard }
            | EventRequest::Swap { shard } => u64::from(*shard),
        }
    }
}
