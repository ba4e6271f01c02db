//! A plan of a range query is its threshold vector, the first of the cheapest; a walk over it is the rows that are left to read, by part.
//! Each posting is read for one step and kept at the first part that finds it, so what was kept and what the rest will keep stay the scan.
#![tactic(auto)]

mod plan;
mod walk;

pub use plan::Plan;
pub use walk::Walk;
