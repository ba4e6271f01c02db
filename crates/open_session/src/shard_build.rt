//! The build that a session has in memory.

use repartitioner::Build;

/// A build, and the shard that it is of.
#[derive(Drop)]
pub struct ShardBuild<const W: usize> {
    pub shard: u32,
    pub build: Build<W>,
}
