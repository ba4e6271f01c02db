//! A shard's layout is changed by a build beside it: started at a front, and swapped in at a later one. A cheaper one is searched at a
//! front too.
//! Beside what it saw and how far the shard came, nothing of the desk changes but the shard's layout and the count of swaps.
#![tactic(auto)]

mod answer;
mod laws;
mod search;
mod start;
mod swap;

pub use answer::SwapAnswer;
pub use laws::builds_stay_with_their_shard;
pub use search::search_layout;
pub use start::start_build;
pub use swap::swap_build;
