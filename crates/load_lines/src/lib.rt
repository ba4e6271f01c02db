//! A workload is drawn from a number: codes for keys from 0 on, and queries at some of them. Its lines are the text that asks a
//! session to add the codes and to answer the queries, and what is made here is just that text.
#![tactic(auto)]

mod codes;
mod draws;
mod lines;

pub use lines::{QUERIES, lines_of_load};
