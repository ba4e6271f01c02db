//! A near query on one version is a source of the hits of all its rows, nearest first.
//! For each radius it reads the cheapest next ring of one part, and so at most the least costs of the radii begun.
#![tactic(auto)]

mod near_rings;
mod near_task;
mod settling;

pub use near_task::NearTask;
