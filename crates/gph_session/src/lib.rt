//! A session is the list of its lines, each with its replies, in one history of entries. What `session` writes over a desk is the
//! text of the replies of such a session over the lines that it read, however it ended; what its queries read is counted on a
//! ledger for each shard, and what its shards follow on the ledger of upkeep.
#![tactic(auto)]

mod block;
mod report;
mod serve;
mod session_call;

pub use open_session::LayoutFrom;
pub use report::{Report, Status};
pub use session_call::session;
