//! Codes are lists of bits, rows pairs of a key and a code; `specs/` says what a scan of rows is.
//! The plain scan gives exactly that, by looking at every row.
#![tactic(auto)]

mod history_laws;
mod hit;
mod limits;
mod plain;
mod recoded_laws;
mod row;
mod row_laws;
mod scan_laws;
mod shard_laws;

pub use history_laws::{decisions_keep_a_history_legal, legal_histories_grow};
pub use hit::Hit;
pub use limits::{
    BITS_MOST, ENTRIES_MOST, PART_WIDTH_MOST, PARTS_MOST, ROOM_MOST, SESSIONS_MOST, SHARDS_MOST,
    WORDS_MOST,
};
pub use plain::plain_scan;
pub use recoded_laws::{
    recoded_histories_are_alike, recoded_rows_are_alike, stored_histories_are_cut,
    stored_histories_grow,
};
pub use row::Row;
pub use row_laws::{rows_follow_the_history, stored_rows_scan_alike};
pub use scan_laws::{hits_ascend, scan_lists_the_near_rows, the_one_order};
pub use shard_laws::{every_row_is_within_all_bits, shards_together_answer};
