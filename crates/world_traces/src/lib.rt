//! A world answers the lines of a trace: each line that is an event by a step of it, in their order.
//! Whatever lines follow one another, each query answers its own prefix, and the ledgers rise by what the queries read.
#![tactic(auto)]

mod answering;
mod meets_events;
mod tracing;

pub use meets_events::MeetsEvents;
pub use tracing::Tracing;
