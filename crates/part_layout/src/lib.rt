//! A layout is the number of bits of a code and the list of its parts, each the list of its positions: every position below the
//! number of bits stands in exactly one part, once. What is read, laid out, printed or taken of a code is what the definitions say.
#![tactic(auto)]

mod config;
mod cursor;
mod judging;
mod laws;
mod layout;
mod layout_fault;
mod layout_text;
mod pieces;
mod spelling;
mod syntax;
mod word_runs;

pub use config::{Config, INPUT_MOST};
pub use laws::{bytes_of_layouts, text_of_layouts};
pub use layout::Layout;
pub use layout_fault::LayoutFault;
pub use layout_text::LayoutText;
