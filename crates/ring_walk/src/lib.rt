//! A near query is planned for all radii; a walk over its rings reads the rows of one part at just the next distance, ring by ring.
//! Each ring is a cheapest one, each posting is read for one step, and a row's hit is given exactly where no part had found it.
#![tactic(auto)]

mod near_plan;
mod ring_walk;

pub use near_plan::NearPlan;
pub use ring_walk::RingWalk;
