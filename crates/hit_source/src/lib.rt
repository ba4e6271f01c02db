//! A source of hits is what it is asked, a list of hits in order, and where it stands: how many were given, which wait, what was read.
//! A poll reads and moves hits into the room within a budget, and the hits given and waiting are always the first of that list.
#![tactic(auto)]

mod draining;
mod hit_source;
mod hit_window;
mod listed_hits;
mod polled;
mod settling;

pub use draining::{drain, take_waiting};
pub use hit_source::HitSource;
pub use hit_window::HitWindow;
pub use listed_hits::ListedHits;
pub use polled::Polled;
