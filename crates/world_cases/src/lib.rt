//! Worked lists of events of a world, each answer compared. Each call that may find no memory is run with ample memory.
#![tactic(auto)]

#[cfg(test)]
mod queries;
#[cfg(test)]
mod rebuilds;
#[cfg(test)]
mod runs;
#[cfg(test)]
mod worlds;
