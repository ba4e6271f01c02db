//! A version is a shard's rows after the first entries of a history, with a posting table and counts for each part of its layout.
//! The tables agree with the one set of rows, and an entry changes all of them together.
#![tactic(auto)]

mod keyed_rows;
mod laws;
mod masked_layout;
mod part_table;
mod places;
mod prepared;
mod row_bucket;
mod tables;
mod version;

pub use laws::{counts_are_of_the_rows, versions_follow_the_history};
pub use part_table::PartTable;
pub use prepared::Prepared;
pub use version::Version;
