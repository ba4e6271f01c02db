//! Whatever answers lines answers those of an input as they come, one after the other, until the input ends. What was written is the
//! texts of the answers to the lines that were read, for each way in which the call ends.
#![tactic(auto)]

mod block;
mod ending;
mod line_answers;
mod serve;

pub use ending::Ending;
pub use line_answers::LineAnswers;
pub use serve::answer_lines;
