//! A threshold vector gives each part of a code a whole number of at least -1, and its cost is the sum of the counts at these radii.
//! The laws, each the contract of a function that does nothing, say that every vector finds every near code, that a smaller sum doesn't, and that the first of the cheapest vectors is one of a kind.
#![tactic(auto)]

mod bounds;
mod choice;
mod distance_sum;
mod first_below;
mod least;
mod listed;
mod pigeonhole;
mod row_counting;
mod short_sum;
mod units;

pub use bounds::{
    bounds_are_unique, bounds_follow_the_rows, bounds_rise_with_the_radius,
    units_are_values_and_costs,
};
pub use choice::choice_is_unique;
pub use distance_sum::distance_is_the_sum_of_the_parts;
pub use first_below::some_place_is_below;
pub use least::least_is_at_most_the_greatest_count;
pub use listed::{Listed, least_by_listing};
pub use pigeonhole::near_code_is_found;
pub use row_counting::counts_of_rows_are_lawful;
pub use short_sum::smaller_sum_misses_a_code;
pub use units::vector_allows_tau_and_one_units;
