//! The text of a session's replies has numbers in it: how many hits were given, and what `cost` told. Reading it back gives their
//! sums.
#![tactic(auto)]

mod line;
mod sums;

pub use sums::Sums;
