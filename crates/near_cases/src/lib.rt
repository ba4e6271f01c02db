//! The cases of near queries: each against the plain scan and its bound.
//! Each call that may find no memory is run once with ample memory, and its answer is compared.
#![tactic(auto)]

#[cfg(test)]
mod gathered;
#[cfg(test)]
mod near_tasks;
#[cfg(test)]
mod rows;
