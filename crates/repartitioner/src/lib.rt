//! A build is a version of a shard that is made in another layout, in steps and beside the shard.
//! Whatever it has placed and followed, it has the rows of its position in the history.
#![tactic(auto)]

mod build;
mod laws;
mod stage;
mod state;
mod unready;

pub use build::Build;
pub use laws::builds_follow_the_history;
pub use state::BuildState;
pub use unready::Unready;
