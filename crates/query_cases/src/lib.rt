//! The cases of the open queries of a session: each request on a tag, and what its reply says.
#![tactic(auto)]

#[cfg(test)]
mod queries;
