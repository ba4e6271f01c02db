//! A shard is a current version, and those at earlier positions that live fronts still need.
//! Whatever is committed, opened, closed and swapped, each live front finds its version, with the rows of its own prefix.
#![tactic(auto)]

mod follow;
mod laws;
mod moved;
mod shard;

pub use follow::reached;
pub use laws::{journals_keep_the_rule, rules_follow_fronts, shards_keep_the_rule};
pub use moved::Moved;
pub use shard::Shard;
