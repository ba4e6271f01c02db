//! A table keeps, for each value of a width, how many copies of it there are.
//! After any list of changes, `within` is the number of copies at the values within the radius.
#![tactic(auto)]

mod counts;
mod laws;
mod levels;

pub use counts::Counts;
pub use laws::{changes_follow_a_list, counts_are_those_of_a_list};
