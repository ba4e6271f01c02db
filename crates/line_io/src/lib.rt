//! A stream is a list of bytes that is read, or written, piece by piece. Sources and sinks may fail, and count it: an answer
//! that a call failed comes only where the count rose.
#![tactic(auto)]

mod from_reader;
mod gathered;
mod gathered_reader;
mod gathered_writer;
mod gathering;
mod memory_sink;
mod memory_source;
mod pieces;
mod read_after;
mod read_end;
mod sink;
mod source;
mod steady_sink;
mod steady_source;
mod to_writer;
mod write_end;

pub use from_reader::FromReader;
pub use gathered::Gathered;
pub use gathered_reader::GatheredReader;
pub use gathered_writer::GatheredWriter;
pub use gathering::{Flushed, NotFlushed};
pub use memory_sink::MemorySink;
pub use memory_source::MemorySource;
pub use read_end::ReadEnd;
pub use sink::Sink;
pub use source::{Failed, Source};
pub use steady_sink::SteadySink;
pub use steady_source::SteadySource;
pub use to_writer::ToWriter;
pub use write_end::WriteEnd;
