//! What a journal holds.

use crate::Op;

/// An operation, with the number of the session that made it.
#[derive(Clone, Copy, Debug, PartialEq, Eq)]
pub struct Entry<const W: usize> {
    pub who: u32,
    pub op: Op<W>,
}
