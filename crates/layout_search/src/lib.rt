//! A search for a cheaper layout makes, round by round, the first exchange of two positions of neighbouring parts that lowers the cost.
//! What it finds is the layout where the rounds of the model end; it reads each of the rows of least key for one step.
#![tactic(auto)]

mod arrangement;
mod counting;
mod found;
mod improving;
mod places;
mod rounds;
mod sample;
mod search;
mod spelling;
mod total;
mod trial;
mod trying;

pub use found::Found;
pub use improving::improve;
pub use sample::Sample;
