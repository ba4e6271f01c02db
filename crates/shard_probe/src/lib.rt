//! A probe is a query on one version: what the version's parts, counts and posting lists are to the query's code.
//! Each posting is read for one step; the counts round the query are those of the version's rows.
#![tactic(auto)]

mod part_values;
mod probe;
mod probe_counts;
mod radius_counts;

pub use probe::Probe;
pub use radius_counts::RadiusCounts;
