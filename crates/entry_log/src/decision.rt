//! What becomes of an operation.

ghost use Rattle.std.specs.Prelude.{◌≡◌, ℕ, ◌<◌, ◌≤◌, ◌↔◌, true, false};
ghost use Rattle.entry_log.specs.Decisions.{FitsRows, is_add};
ghost use Rattle.entry_log.specs.Meaning.{DecidesAs, DecidesStored};
ghost use Rattle.entry_log.specs.declared.decision.Decision.TheVariants.{Added, Taken, Deleted, Absent, Full};

use crate::Op;

/// What becomes of an operation.
#[derive(Clone, Copy, Debug, PartialEq, Eq)]
pub enum Decision {
    /// Its row is added.
    Added,
    /// Its key, which it would add, has a row.
    Taken,
    /// Its row is deleted.
    Deleted,
    /// Its key, which it would delete, has no row.
    Absent,
    /// It fits the rows, and there is no room for one more entry.
    Full,
}

/// Decides on an operation whose key has a row where `present` says so, while `entries` entries stand
/// of at most `limit`. That the key is taken or absent comes before that there is no room.
pub fn decide<const W: usize>(op: &Op<W>, present: bool, entries: u64, limit: u64) -> Decision
    // The operation doesn't fit the rows.
    ensures taken { (result ≡ Taken) ↔ (is_add op.now ≡ true × present ≡ true) }
    ensures absent { (result ≡ Absent) ↔ (is_add op.now ≡ false × present ≡ false) }
    // It fits them.
    ensures full { (result ≡ Full) ↔ (FitsRows op.now present × limit ≤ entries) }
    ensures added { (result ≡ Added) ↔ (is_add op.now ≡ true × present ≡ false × entries < limit) }
    ensures deleted { (result ≡ Deleted)
        ↔ (is_add op.now ≡ false × present ≡ true × entries < limit) }
    // The decision of the definitions, on rows that have the key where `present` says so.
    ensures defined { DecidesAs op.now present entries limit result }
    ensures stored { DecidesStored op.now present entries limit result }
{
    let full = entries >= limit;
    match op {
        Op::Add { .. } => {
            if present {
                Decision::Taken
            } else if full {
                Decision::Full
            } else {
                Decision::Added
            }
        }
        Op::Delete { .. } => {
            if !present {
                Decision::Absent
            } else if full {
                Decision::Full
            } else {
                Decision::Deleted
            }
        }
    }
}
