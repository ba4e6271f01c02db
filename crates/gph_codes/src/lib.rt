//! A code is the list of the bits that its words keep, position 0 first, which is the top bit of the first word.
//! Reading, printing and the distance mean what they mean on those bits, counted one by one.
#![tactic(auto)]

mod bytes;
mod code;
mod code_fault;
mod distance;
mod width;

pub use code::{Code, dist, dist_under};
pub use code_fault::CodeFault;
pub use distance::{distance_of_codes, one_code, part_distance_is_under_the_mask};
