//! What became of one shard in a turn.

ghost use Rattle.std.specs.Prelude.{◌≡◌};
ghost use Rattle.shard_tending.specs.Outcomes.{outcome_of};

use shard_rebuild::SwapAnswer;

/// What became of a shard.
#[derive(Drop)]
pub enum ShardTurn {
    /// No cheaper layout was found.
    Stays,
    /// It has a cheaper layout.
    Swapped,
    /// Another desk had brought it on, and the build of the cheaper layout was dropped.
    Moved,
    /// There was no memory, and its layout is as it was.
    NoMemory,
}

// What becomes of a shard by the answer to its swap, whose build is dropped.
pub(crate) fn outcome_of<const W: usize>(answer: SwapAnswer<W>) -> ShardTurn
    ensures { result ≡ outcome_of answer.entry }
{
    match answer {
        SwapAnswer::Swapped { at: _ } => ShardTurn::Swapped,
        SwapAnswer::Moved {
            front: _,
            shard_at: _,
            build: _,
        } => ShardTurn::Moved,
        SwapAnswer::NoMemory { build: _ } => ShardTurn::NoMemory,
    }
}
