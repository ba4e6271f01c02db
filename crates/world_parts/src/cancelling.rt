//! Cancellations of queries.

ghost use Rattle.std.specs.Prelude.{◌≡◌, ◌≤◌, IfSome};
ghost use Rattle.hamming_model.specs.declared.limits.TheConstants.{WORDS_MOST};
ghost use Rattle.commit_journal.specs.Journals.{IsLive, KeepsFronts};
ghost use Rattle.world_parts.specs.Cancels.{IsCancelled, without_held};
ghost use Rattle.world_parts.specs.Seen.{given_by};

use crate::held::Held;
use commit_journal::{Front, Journal};

/// Cancels a query, and tells how many hits it gave. Its front is closed, if it is open, and its versions and sources are let go.
pub fn cancel_query<const W: usize>(journal: &mut Journal<W>, held: &mut Held<W>) -> u64
    requires few_words { W ≤ WORDS_MOST }
    requires live { IfSome held.old.front (IsLive journal.old) }
    ensures journal { journal.new ≡ without_held journal.old held.old.front }
    ensures cancelled { IsCancelled held.old held.new }
    ensures given { result ≡ given_by held.old.gather }
    ensures fronts { KeepsFronts journal.old journal.new }
{
    held.cancelled = true;
    close_open(journal, held.front.take());
    held.pins.clear();
    match held.gather.take() {
        Some(gather) => gather.given(),
        None => 0,
    }
}

// Closes a front, if it is open.
fn close_open<const W: usize>(journal: &mut Journal<W>, front: Option<Front<W>>)
    requires live { IfSome front (IsLive journal.old) }
    ensures journal { journal.new ≡ without_held journal.old front.entry }
    ensures fronts { KeepsFronts journal.old journal.new }
{
    if let Some(front) = front {
        journal.close_front(front);
    }
}
