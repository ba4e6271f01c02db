//! The line that spells an event has its words, one after the other. It is read as just that event, whatever event of a world it is whose numbers
//! have as many digits as a line may give them.
#![tactic(auto)]

mod laws;

pub use laws::each_event_is_spelled_by_a_line;
