//! A range query on one version is a source of the hits of the scan of its rows.
//! It reads the postings of the cheapest threshold vector, one step each, and keeps each near code at the first part that finds it.
#![tactic(auto)]

mod range_task;

pub use hamming_model::Hit;
pub use hit_source::{HitSource, Polled};
pub use range_task::RangeTask;
