//! The requests on the queries of a session: `range`, `near`, `next`, `cost`, `plan` and `cancel`. Whatever state the session stands
//! for, each is answered by a step of it in which nothing is built, and its ledgers rise by what the queries read.
#![tactic(auto)]

mod asking;
mod opening;

pub use asking::{cancel, cost, next, plan};
pub use opening::begin_query;
