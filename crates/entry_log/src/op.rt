//! What an entry does to the rows.

ghost use Rattle.std.specs.Prelude.{◌≡◌};
ghost use Rattle.entry_log.specs.Entries.{kept_operation};
ghost use Rattle.entry_log.specs.Meaning.{operation_key};

use gph_codes::Code;

/// An operation on the row of one key.
#[derive(Clone, Copy, Debug, PartialEq, Eq)]
pub enum Op<const W: usize> {
    /// Adds a row with this key and code.
    Add { key: u64, code: Code<W> },
    /// Deletes the row of this key.
    Delete { key: u64 },
}

impl<const W: usize> Op<W> {
    /// The key of the row.
    pub fn key(&self) -> u64
        ensures { result ≡ operation_key (kept_operation self.now) }
    {
        match self {
            Op::Add { key, .. } | Op::Delete { key } => *key,
        }
    }
}
