//! The top call serves what the words of the command line ask for. What `run` writes over a desk of its own is the text of the
//! replies of a session that is alone over the lines that it read, for each way in which it ends; what `trace` writes is the
//! answers of a world to the events that its lines are; and `serve_one` serves one session at a desk of a board, among others.
#![tactic(auto)]

mod board_session;
mod load;
mod outcome;
mod top;
mod trace_call;

pub use board_session::serve_one;
pub use outcome::Outcome;
pub use top::run;
pub use trace_call::trace;
