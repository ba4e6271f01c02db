//! What the program counts on.

/// The ledgers on which the postings that are read are counted.
#[derive(Drop)]
pub(crate) struct Postings;

/// The ledger on which the entries that shards follow are counted.
#[derive(Drop)]
pub(crate) struct Upkeep;
