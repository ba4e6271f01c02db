//! A gathering is many sources of hits and a limit: its answer is the merge of their hits, cut there.
//! It gives the answer in order, and begins no radius above the distance of the next hit.
#![tactic(auto)]

mod either;
mod gate;
mod gather;
mod looks;
mod round;
mod tally;

pub use either::Either;
pub use gate::{Gate, NoGate};
pub use gather::Gather;
pub use tally::Tally;
