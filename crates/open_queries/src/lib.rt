//! The open queries of a session are a list: of each its tag, its gathering, and whether it was said that all hits were given.
//! A request for hits is told the next ones of the answer of the tag's query, and each ledger rises by what that query read.
#![tactic(auto)]

mod asking;
mod giving;
mod open_queries;
mod open_query;
mod output;

pub use open_queries::OpenQueries;
pub use open_query::{MOST_OPEN, OpenQuery};
pub use output::{say, send, write_all};
