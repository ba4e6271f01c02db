//! A shard in a world.

use repartitioner::Build;
use versioned_shard::Shard;

/// A shard and its build, if one goes on.
#[derive(Drop)]
pub struct Place<const W: usize> {
    pub shard: Shard<W>,
    pub build: Option<Build<W>>,
}
