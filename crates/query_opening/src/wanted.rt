//! What a query wants of each shard.

/// The codes that a query finds on a shard.
#[derive(Clone, Copy)]
pub enum Wanted {
    /// All at most so far away, in bits.
    Within(u32),
    /// All, nearest first.
    Nearest,
}
