//! What an event is answered.

use commit_journal::Decided;
use hamming_model::Hit;
use hit_source::Polled;

/// What an event that isn't refused is answered.
#[derive(Clone, Copy, Debug, PartialEq, Eq)]
pub enum Told {
    /// An operation was decided.
    Decided(Decided),
    /// A query was opened, with this number, on so many entries.
    Opened { query: u32, position: u64 },
    /// The shard stands at so many entries.
    Advanced { at: u64 },
    /// So many shards aren't pinned.
    Pinned { left: u32 },
    /// A source was polled.
    Polled(Polled),
    /// A source wasn't polled: it can't have the next hit, or the hit waits there.
    Held,
    /// The next hit.
    Gave(Hit),
    /// A source has to be polled before the next hit is known.
    NotYet,
    /// All hits were given, so many.
    Ended { count: u64 },
    /// The query was cancelled after so many hits.
    Cancelled { count: u64 },
    /// So many rows of the build aren't placed.
    Built { left: u64 },
    /// The build stands at so many entries.
    Followed { at: u64 },
    /// The build's layout is the shard's, which stands at so many entries.
    Swapped { at: u64 },
}
