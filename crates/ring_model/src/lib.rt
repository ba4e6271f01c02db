//! A search that widens the parts one unit at a time reads the cheapest next ring for each radius.
//! It costs at most the least cost for the radius, and then every near row was found once: the laws say it.
#![tactic(auto)]

mod ring_laws;

pub use ring_laws::{
    a_ring_finds_its_rows, hits_split_at_a_distance, near_rows_are_met,
    the_cheapest_ring_is_within_the_least,
};
