//! A line of a trace is an event of a world, or has a first fault, and what the event is answered is one line of text. Reading a line
//! gives what its words say, and writing an answer gives its text.
#![tactic(auto)]

mod answer;
mod build_reading;
mod event_request;
mod event_word;
mod faults;
mod forms;
mod laws;
mod query_reading;
mod reading;
mod session_reading;

pub use answer::write_answer;
pub use event_request::EventRequest;
pub use event_word::{CommitForm, EventWord, OpenForm};
pub use faults::line_too_long;
pub use laws::{a_trace_goes_on, what_is_read_is_formed};
pub use reading::read_event_line;
