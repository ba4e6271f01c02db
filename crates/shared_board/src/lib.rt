//! A board has one journal and its shards for desks in several threads: each call of a desk waits for the place that it needs, and
//! speaks of one history, of which each desk has seen the beginning.
#![tactic(auto)]

mod as_desk;
mod board;
mod counts;
mod desk;
mod desk_fault;
mod ended;
mod meeting;
mod note;
mod pinned_layout;
mod standing;
mod start;

pub use board::{Board, First};
pub use desk::SharedDesk;
pub use desk_fault::DeskFault;
pub use ended::{Ended, Held};
pub use note::Note;
pub use standing::Standing;
