//! The cases of posting lists and rows that stand in buckets, which tables and versions share.
//! Each call that may find no memory is run once with ample memory, and its answer is compared.
#![tactic(auto)]

#[cfg(test)]
mod postings;
#[cfg(test)]
mod shared_lists;
#[cfg(test)]
mod shared_rows;
