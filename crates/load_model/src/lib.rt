//! A session that is alone answers the lines of a workload: where no reply is that there was no memory, its replies tell as many hits
//! and as great a bound as the workload's words say, and reads between them. Each law is the contract of a function that does nothing.
#![tactic(auto)]

mod laws;

pub use laws::{a_load_has_one_bound, no_line_of_a_load_quits, replies_to_a_load, sums_of_a_load};
