//! A search by a threshold vector reads, at each part, the posting lists of a ball's values, and keeps a row at the first part that finds it.
//! The laws, each the contract of a function that does nothing, say that it reads what the vector costs and gives each near row once.
#![tactic(auto)]

mod kept_laws;
mod order_laws;
mod reading_laws;
mod step_laws;
mod stored_laws;

pub use kept_laws::{near_rows_are_kept_once, rows_read_are_the_cost};
pub use order_laws::{hits_are_few, order_follows_the_hits};
pub use reading_laws::{balls_read_the_rows_found, lists_read_by_parts};
pub use step_laws::{a_part_is_read_to_its_end, a_row_is_read};
pub use stored_laws::stored_rows_search_alike;
