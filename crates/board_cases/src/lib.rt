//! The cases of a board: desks in several threads over one journal and its shards, and what is left when it is closed.
#![tactic(auto)]

#[cfg(test)]
mod boards;
#[cfg(test)]
mod numbers;
#[cfg(test)]
mod swaps;
#[cfg(test)]
mod threads;
#[cfg(test)]
mod two_desks;
