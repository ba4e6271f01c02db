//! The table of one sample has, part by part, how many rows are near to it within each radius. It answers the least cost of a threshold
//! vector over its counts, and what it would be with other counts at two neighbouring parts.
#![tactic(auto)]

mod least_sums;
mod levels;
mod sample_table;

pub use sample_table::SampleTable;
