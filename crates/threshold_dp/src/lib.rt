//! A part's counts are a function of the part and of the distances that its threshold allows, and a threshold vector is a list of whole numbers, one a part.
//! `allocate` answers the least cost of a vector for its radius, and leaves the first of the cheapest vectors.
#![tactic(auto)]

mod allocation;
mod part_counts;
mod radii;
mod scratch;
mod table;
mod thresholds;

pub use allocation::allocate;
pub use part_counts::PartCounts;
pub use radii::Radii;
pub use scratch::Scratch;
pub use thresholds::Thresholds;
