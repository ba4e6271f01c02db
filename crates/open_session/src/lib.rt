//! A session between two lines. Its desk, open queries, samples, build and ledgers are a moment, which stands for a state of the
//! definition of sessions in the history so far; what is kept of samples and layouts is what the queries of that state make of them.
#![tactic(auto)]

mod open_session;
mod pinned_layouts;
mod question;
mod samples;
mod shard_build;

pub use open_session::{Session, new_session};
pub use pinned_layouts::{LayoutFrom, PinnedLayouts};
pub use question::Question;
pub use samples::Samples;
pub use shard_build::ShardBuild;
