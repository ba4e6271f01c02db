//! The parts of a world, one at a time: a query with the versions that it pinned and the gathering of its sources, and a shard with its
//! build. Each call works on one of them.
#![tactic(auto)]

mod advancing;
mod ask;
mod building;
mod cancelling;
mod following;
mod giving;
mod held;
mod opening;
mod pinning;
mod place;
mod polling;
mod sources;
mod starting;
mod swapping;

pub use advancing::{bring, come};
pub use ask::Ask;
pub use building::{begin_build, place_rows};
pub use cancelling::cancel_query;
pub use following::follow_history;
pub use giving::give_held;
pub use held::{Held, Source};
pub use opening::{new_held, no_pins};
pub use pinning::{pin_held, unpinned};
pub use place::Place;
pub use polling::poll_held;
pub use starting::first_places;
pub use swapping::swap_in;
