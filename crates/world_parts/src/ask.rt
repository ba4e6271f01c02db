//! What a query asks.

use gph_codes::Code;

/// A question on the rows of a prefix of the history.
#[derive(Clone, Copy)]
pub enum Ask<const W: usize> {
    /// All rows within a distance, in bits.
    Range { tau: u32, code: Code<W> },
    /// So many nearest rows, at least 1.
    Near { number: u32, code: Code<W> },
}
