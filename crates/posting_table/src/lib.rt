//! A posting table is a list of entries (key, code) for each value of one part of a layout.
//! Entries come and go one at a time, and no call gives a code without a step.
#![tactic(auto)]

mod bucket;
mod changes;
mod lists;
mod no_memory_for;
mod postings;

pub use lists::Lists;
pub use no_memory_for::NoMemoryFor;
pub use postings::Postings;
