ghost use Rattle.std.specs.Prelude.{◌≡◌, ◌↔◌, ◌≤◌, ℕ, ◌*◌, List, take, option_map};
ghost use Rattle.hamming_model.specs.Codes.{padded};
ghost use Rattle.hamming_model.specs.History.{Operation, JournalEntry, Fits, IsLegal};
ghost use Rattle.hamming_model.specs.History.{after_decision, changed, code_at, decision_on, rows_of};
ghost use Rattle.hamming_model.specs.History.{Decision, shard_rows};
ghost use Rattle.hamming_model.specs.Recoded.{AreStoredEntries, IsStoredOperation, cut_history, recoded_history};
ghost use Rattle.hamming_model.specs.Recoded.{recoded_operation, recoded_rows};
ghost use Rattle.hamming_model.specs.Stored.{AreCodes};

/// Law: where each code of some rows is changed in one way, look-ups, changes and shards of the rows are
/// those of the rows as they were, with the codes changed; and the same operations fit.
pub fn recoded_rows_are_alike()
    ensures codes { (change : List ℕ → List ℕ) (rows : List (ℕ × List ℕ)) (key : ℕ) →
        code_at (recoded_rows change rows) key ≡ option_map change (code_at rows key) }
    ensures changes { (change : List ℕ → List ℕ) (rows : List (ℕ × List ℕ)) →
        (operation : Operation) →
        changed (recoded_rows change rows) (recoded_operation change operation)
        ≡ recoded_rows change (changed rows operation) }
    ensures shards { (change : List ℕ → List ℕ) (shard shards : ℕ) (rows : List (ℕ × List ℕ)) →
        shard_rows shard shards (recoded_rows change rows)
        ≡ recoded_rows change (shard_rows shard shards rows) }
    ensures fits { (change : List ℕ → List ℕ) (rows : List (ℕ × List ℕ)) (operation : Operation) →
        Fits (recoded_rows change rows) (recoded_operation change operation) ↔ Fits rows operation }
{}

/// Law: where each code of a history is changed in one way, its rows have the changed codes, and it is
/// as legal and decides as the history does.
pub fn recoded_histories_are_alike()
    ensures rows { (change : List ℕ → List ℕ) (history : List JournalEntry) →
        rows_of (recoded_history change history) ≡ recoded_rows change (rows_of history) }
    ensures first { (change : List ℕ → List ℕ) (position : ℕ) (history : List JournalEntry) →
        recoded_history change (take position history)
        ≡ take position (recoded_history change history) }
    ensures legal { (change : List ℕ → List ℕ) (history : List JournalEntry) →
        IsLegal (recoded_history change history) ↔ IsLegal history }
    ensures decided { (change : List ℕ → List ℕ) (history : List JournalEntry) (limit : ℕ)
        (operation : Operation) →
        decision_on (recoded_history change history) limit (recoded_operation change operation)
        ≡ decision_on history limit operation }
{}

/// Law: a history as words keep it is one of codes of so many bits, cut to these; zeros after the codes
/// give what the words keep, and cutting takes them away again.
pub fn stored_histories_are_cut()
    ensures codes { (words bits : ℕ) (history : List JournalEntry) →
        AreStoredEntries words bits history → AreCodes bits (cut_history bits history) }
    ensures stored { (words bits : ℕ) (history : List JournalEntry) →
        AreStoredEntries words bits history →
        recoded_history (padded (64 * words)) (cut_history bits history) ≡ history }
    ensures cut { (bits positions : ℕ) (history : List JournalEntry) →
        AreCodes bits history →
        cut_history bits (recoded_history (padded positions) history) ≡ history }
{}

/// Law: where words keep each code of a history, they keep those of its first entries, and of the history after any
/// decision on an entry whose code they keep.
pub fn stored_histories_grow()
    ensures first { (words bits position : ℕ) (history : List JournalEntry) →
        AreStoredEntries words bits history → AreStoredEntries words bits (take position history) }
    ensures decided { (words bits : ℕ) (history : List JournalEntry) (entry : JournalEntry)
        (decision : Decision) →
        AreStoredEntries words bits history → IsStoredOperation words bits entry.operation →
        AreStoredEntries words bits (after_decision history entry decision) }
{}
