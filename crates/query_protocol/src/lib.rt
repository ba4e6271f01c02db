//! A line of the protocol is a request or has a first fault, and a reply is one line of text. Reading a line gives what its
//! words say, and writing a reply gives its text.
#![tactic(auto)]

mod bad;
mod builds_reading;
mod laws;
mod reading;
mod reply;
mod request;

pub use bad::{Bad, LineFault};
pub use laws::lines_of_replies;
pub use line_forms::Tag;
pub use reading::read_line;
pub use reply::{Reply, write_code, write_hit, write_layout, write_plan, write_searched};
pub use request::{Request, RequestWord};
