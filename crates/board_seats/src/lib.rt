//! The seats of a board: one journal and its shards in the slots of a table, each taken by a claim of its word and brought home.
//! Between any two steps the table shows one board, and each seat knows what is so of it.
#![tactic(auto)]

mod cell;
mod journal_seat;
mod rule;
mod shard_cell;
mod shard_seat;

pub use journal_seat::{close_front, code_of, commit, draw, find, meet, note, open_front};
pub use rule::{Cell, Keeps, Opening, Past, Place, Seen, View};
pub use shard_seat::{layout_of, pin, swap};
