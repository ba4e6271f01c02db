//! What a session makes of one line. The line that was cut last is answered by a step of a session, whatever state
//! the desk and the open queries mean: its replies are written, and the desk, the queries and the ledgers mean the next state.
#![tactic(auto)]

mod line_answer;
mod turn;

pub use line_answer::answer;
pub use turn::Turn;
