//! A desk is what a session works over: a history, of which it has seen the beginning, and the shards along it.
//! Each call speaks of all that is seen after it, and a desk that is alone has seen the whole history.
#![tactic(auto)]

mod desk;
mod pinned_layout;
mod shards;
mod solo;

pub use desk::Desk;
pub use solo::SoloDesk;
