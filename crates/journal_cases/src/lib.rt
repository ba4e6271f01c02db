//! The cases of the journal, its fronts, the shards that follow it, the desk of a session over them, and builds beside its shards.
//! Each call that may find no memory is run once with ample memory, and its answer is compared.
#![tactic(auto)]

#[cfg(test)]
mod builds;
#[cfg(test)]
mod desks;
#[cfg(test)]
mod journals;
#[cfg(test)]
mod shards;
