//! What holds of a history as a journal keeps it, with zeros behind its codes, holds of the history in its codes alone.
//! The laws carry facts of journal, shards, sources and gatherings over to the words of a world's definitions.
#![tactic(auto)]

mod cut_laws;
mod front_laws;
mod source_laws;

pub use cut_laws::{histories_are_cut_once, shards_follow_cut_histories};
pub use front_laws::{held_fronts_are_the_live_ones, live_fronts_change_at_one_number};
pub use source_laws::{near_gatherings_go_on, sources_ask_the_question};
