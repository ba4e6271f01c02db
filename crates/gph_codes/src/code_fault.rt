//! Why a text is no code.

/// What is wrong with a text that spells no code.
#[derive(Clone, Copy, Debug, PartialEq, Eq)]
pub enum CodeFault {
    /// It hasn't a digit for each four bits of the code.
    Length,
    /// The byte at this place, counted from 0, is the first that is no hexadecimal digit.
    Digit { at: usize },
}
