//! A stream is a list of bytes, cut into lines. What comes out of a cutter are the lines of what went in, however it was
//! cut into pieces.
#![tactic(auto)]

mod buffer;
mod cutter;
mod laws;

pub use buffer::LineBuf;
pub use cutter::{Cut, Cutter, LINE_MOST};
pub use laws::{dropped_return, line_pieces, lines_in_pieces};
