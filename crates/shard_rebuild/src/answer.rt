//! The answer to a swap.

use repartitioner::Build;

/// What became of a build that was to be swapped in.
#[derive(Drop)]
pub enum SwapAnswer<const W: usize> {
    /// The shard has the build's layout. Both stand at this position.
    Swapped {
        at: u64,
    },
    /// Another desk had brought the shard beyond the front, to which the build came.
    Moved {
        front: u64,
        shard_at: u64,
        build: Build<W>,
    },
    /// There was no memory. The build may have come to the front.
    NoMemory {
        build: Build<W>,
    },
}
