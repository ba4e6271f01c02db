//! A session is the list of its lines, each with its replies, in one history of entries. The definitions say what a session may
//! answer, what it may read and how a call that serves one ends; the laws, each the contract of a function that does nothing, say
//! that a session alone is told whole by its lines and replies, that what a query has read never falls, and that a report tells
//! which layouts each query pinned.
#![tactic(auto)]

mod limits;
mod run_laws;
mod sample_laws;

pub use limits::BLOCK_MOST;
pub use run_laws::{layouts_told_are_those_pinned, queries_only_read_on};
pub use sample_laws::samples_follow_the_openings;
