//! A world meets the events that the lines of a trace are: each is one step of it, and counts what the queries read.
//! Whatever lines follow one another, what is written is its answers to one list of events, a run of the world in which each query answers
//! its own prefix.
#![tactic(auto)]

mod event_world;
mod program_event;
mod traced;

pub use event_world::EventWorld;
pub use traced::answer_trace;
