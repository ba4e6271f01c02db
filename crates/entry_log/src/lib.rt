//! An entry is a session's number and an operation on the row of one key.
//! What becomes of an operation is decided by whether its key has a row and by how many entries stand.
#![tactic(auto)]

mod decision;
mod entry;
mod op;

pub use decision::{Decision, decide};
pub use entry::Entry;
pub use op::Op;
