//! Why there is no such layout.

/// What is wrong with a text that spells no layout, or with a number of parts.
#[derive(Clone, Copy, Debug, PartialEq, Eq)]
pub enum LayoutFault {
    /// The text up to and with the byte at this place, from 0, begins no layout text; at the text's
    /// length the text is only the beginning of one.
    Syntax { at: usize },
    /// The first number that is no position of a code.
    Range { position: u32 },
    /// The first number that stood in the text before.
    Twice { position: u32 },
    /// The least position that stands nowhere.
    Missing { position: u32 },
    /// The first part, from 0, of more than 12 positions.
    Width { part: u32 },
    /// The number of parts isn't from 1 to 64, or there are more parts than bits.
    Parts { count: u32 },
    /// There was no memory for the layout.
    NoMemory,
}
