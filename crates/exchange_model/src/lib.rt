//! A search for a cheaper layout is a function: the exchanges of neighbouring parts' positions in one order, the first that lowers the
//! cost, and the rounds. The laws say what the least cost and the exchanges are, and that the cost never rises.
#![tactic(auto)]

mod laws;
mod limits;
mod position_exchange;

pub use laws::{
    an_exchange_is_found_where_one_is_cheaper, exchanges_keep_a_layout,
    least_cost_is_that_of_splits, least_cost_is_that_of_three, least_cost_is_the_least,
    rounds_never_cost_more,
};
pub use limits::{ROUNDS_MOST, SAMPLE_RADIUS_MOST, SAMPLES_MOST, SEARCH_ROWS_MOST};
pub use position_exchange::PositionExchange;
