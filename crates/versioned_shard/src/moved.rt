//! The refusal of a rebuild.

use shard_version::Prepared;

/// A rebuild that stands at another position than the shard, with that position.
#[derive(Drop)]
pub struct Moved<const W: usize> {
    pub shard_at: u64,
    pub prepared: Prepared<W>,
}
