//! A ledger is a number that only `tick` changes, and sixteen of them are a list of sixteen
//! numbers. Each ledger starts at 0, and a tick adds exactly one.
#![tactic(auto)]

mod meters;
mod no_memory;
mod steps;
mod tally;

pub use meters::Meters;
pub use no_memory::NoMemory;
pub use steps::{Steps, upkeep};
