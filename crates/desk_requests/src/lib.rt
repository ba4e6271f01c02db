//! The requests that only the desk of a session answers: `add`, `del`, `get` and `layout`. Whatever state the session stands for, each
//! is answered by a step of it in which nothing is built, that reads no posting and has no shard follow an entry.
#![tactic(auto)]

mod commits;
mod layouts;

pub use commits::{add, delete, get};
pub use layouts::layout;
