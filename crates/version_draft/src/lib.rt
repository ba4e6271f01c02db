//! A draft is a version of a shard in another layout, some of whose rows are placed.
//! Whatever is placed in which steps, the version that comes of it has the same shard, position and rows.
#![tactic(auto)]

mod draft;
mod part_draft;
mod parts;

pub use draft::Draft;
