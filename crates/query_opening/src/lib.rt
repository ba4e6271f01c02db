//! A query stands on one position of the history: every shard is pinned there, and a source is opened on each version.
//! Nothing else of the desk changes, and upkeep rises by at most the entries that the shards were behind.
#![tactic(auto)]

mod opening;
mod pinning;
mod wanted;

pub use opening::{Opened, Source, open_query};
pub use pinning::{Pinned, pin_all};
pub use wanted::Wanted;
