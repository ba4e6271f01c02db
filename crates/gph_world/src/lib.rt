//! A world is a journal, the shards along it with their builds, and the queries on its prefixes; each call is one atomic step of it.
//! Whatever calls follow one another, the state between two of them is sound, and each answer is that of the definitions.
#![tactic(auto)]

mod advancing;
mod building;
mod cancelling;
mod commits;
mod event;
mod following;
mod giving;
mod opening;
mod pinning;
mod polling;
mod starting;
mod stepping;
mod swapping;
mod world;

pub use event::Event;
pub use world::World;
pub use world_parts::{Ask, Source};
