//! A turn of the repartition worker goes through a desk's shards, and swaps in a cheaper layout wherever a search finds one.
//! Nothing else of the desk changes but what it saw, how far its shards came, and its counts of swaps.
#![tactic(auto)]

mod limits;
mod outcome;
mod pinning;
mod placing;
mod sampling;
mod tended;
mod tending;
mod turning;

pub use outcome::ShardTurn;
pub use tended::Tended;
pub use tending::tend;
