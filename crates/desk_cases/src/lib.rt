//! The cases of sessions over a desk that is handed to them: what a session asks its desk for, and what it replies.
#![tactic(auto)]

#[cfg(test)]
mod counting;
#[cfg(test)]
mod layouts;
#[cfg(test)]
mod sessions;
