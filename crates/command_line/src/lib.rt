//! The words of the command line ask for a session or a workload, or have a first word at fault. Reading them gives what they ask, or the
//! place of that word.
#![tactic(auto)]

mod command;
mod command_option;
mod command_words;
mod given;
mod laws;
mod listening;

pub use command::{Command, CommandWord};
pub use command_option::CommandOption;
pub use command_words::{read_trace_words, read_words};
pub use laws::{options_in_any_order, options_in_either_form, the_first_fault_is_told};
pub use listening::listen_words;
