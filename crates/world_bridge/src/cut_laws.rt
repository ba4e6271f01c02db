//! Histories in their codes alone.

ghost use Rattle.std.specs.Prelude.{◌≡◌, ◌↔◌, ℕ, List, Option};
ghost use Rattle.hamming_model.specs.History.{Decision, JournalEntry, Operation, after_decision};
ghost use Rattle.hamming_model.specs.Recoded.{IsStoredOperation, cut_entry, cut_history, cut_operation};
ghost use Rattle.hamming_model.specs.Stored.{AddsCode, AreCodes};
ghost use Rattle.commit_journal.specs.Fronts.{FrontState, IsFront};
ghost use Rattle.commit_journal.specs.Journals.{IsKnown};
ghost use Rattle.versioned_shard.specs.Rule.{KeepsRule};
ghost use Rattle.versioned_shard.specs.Shards.{ShardState, advanced};
ghost use Rattle.world_bridge.specs.Cuts.{cut_front};

/// Law: a history in codes of so many bits stays as it is where it is cut to these, and what is decided stands in it as in the history
/// that words keep.
pub fn histories_are_cut_once()
    ensures twice { (bits : ℕ) (history : List JournalEntry) →
        cut_history bits (cut_history bits history) ≡ cut_history bits history }
    ensures same { (bits : ℕ) (history : List JournalEntry) →
        AreCodes bits history → cut_history bits history ≡ history }
    ensures appended { (bits : ℕ) (history : List JournalEntry) (entry : JournalEntry) →
        (decision : Decision) → cut_history bits (after_decision history entry decision)
        ≡ after_decision (cut_history bits history) (cut_entry bits entry) decision }
    ensures adds { (words bits : ℕ) (operation : Operation) →
        IsStoredOperation words bits operation → AddsCode bits (cut_operation bits operation) }
{}

/// Law: a shard keeps its rule along a history exactly where it does along the history in its codes alone; it comes to a front as to
/// the front in its codes alone, which is as well known as the front.
pub fn shards_follow_cut_histories()
    ensures rule { (live : ℕ → Option ℕ) (history : List JournalEntry) (shard : ShardState) →
        KeepsRule live history shard
        ↔ KeepsRule live (cut_history shard.current.layout.bits history) shard }
    ensures comes { (front : FrontState) (shard : ShardState) →
        advanced front shard ≡ advanced (cut_front shard.current.layout.bits front) shard }
    ensures known { (bits : ℕ) (live : ℕ → Option ℕ) (history : List JournalEntry) →
        (front : FrontState) → IsKnown live history front →
        IsKnown live (cut_history bits history) (cut_front bits front) }
    ensures is_front { (bits : ℕ) (front : FrontState) →
        IsFront front → IsFront (cut_front bits front) }
{}
