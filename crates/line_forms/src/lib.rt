//! A line is a list of words, and a word stands for something where it has a form. Cutting a line gives its words, and reading a
//! word gives what it stands for.
#![tactic(auto)]

mod decimals;
mod forms;
mod laws;
mod tag;
mod words;

pub use decimals::{is_decimal, number_of, value_of};
pub use forms::{code_of, count_of, key_of, radius_of, shard_of};
pub use laws::words_of_joined;
pub use tag::{TAG_MOST, Tag};
pub use words::{is_printable, next_word};
