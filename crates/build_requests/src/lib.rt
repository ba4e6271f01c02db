//! The requests on the build of a session, and on a layout to build: `repart`, `build`, `swap` and `search`. Whatever state the session
//! stands for, each is answered by a step of it; the steps that place a build's rows are paid for at its start.
#![tactic(auto)]

mod rebuilding;
mod searching;

pub use rebuilding::{place, start, swap};
pub use searching::search;
