//! A ball is the list of the values within a radius of a value, by distance and then by value.
//! `next` gives the first of that list and leaves the rest, so each value comes once. Flips give the same
//! values ring by ring, in an order of their own.
#![tactic(auto)]

mod ball;
mod distance;
mod flipped;
mod flips;
mod laws;
mod next;

pub use ball::{Ball, distances_within};
pub use distance::value_distance;
pub use flipped::Flipped;
pub use flips::Flips;
pub use laws::{
    ball_has_each_once, ball_is_in_order, ball_sums_add_up, distance_counts_digits,
    flips_make_rings, items_within_add_up,
};
