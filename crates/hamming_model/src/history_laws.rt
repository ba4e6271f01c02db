ghost use Rattle.std.specs.Prelude.{◌≡◌, ◌↔◌, ℕ, ◌<◌, List, [], ◌∷◌, ◌++◌, length, take, true};
ghost use Rattle.hamming_model.specs.History.{Operation, JournalEntry, Fits, IsLegal, rows_of};
ghost use Rattle.hamming_model.specs.History.{after_decision, decision_on, is_accepted};

/// Law: the empty history is legal, and one more entry that fits the rows keeps a history legal; what comes
/// before an entry of a legal history is legal.
pub fn legal_histories_grow()
    ensures begins { IsLegal [] }
    ensures grows { (history : List JournalEntry) (entry : JournalEntry) →
        IsLegal history → Fits (rows_of history) entry.operation → IsLegal (history ++ entry ∷ []) }
    ensures last { (history : List JournalEntry) (entry : JournalEntry) →
        IsLegal (history ++ entry ∷ []) → Fits (rows_of history) entry.operation }
    ensures first { (position : ℕ) (history : List JournalEntry) →
        IsLegal history → IsLegal (take position history) }
{}

/// Law: an operation is accepted exactly where it fits the rows of the history and there is room for one
/// more entry, and the history after the decision is legal.
pub fn decisions_keep_a_history_legal()
    ensures accepted { (history : List JournalEntry) (limit : ℕ) (operation : Operation) →
        (is_accepted (decision_on history limit operation) ≡ true)
        ↔ (Fits (rows_of history) operation × length history < limit) }
    ensures legal { (history : List JournalEntry) (limit : ℕ) (entry : JournalEntry) →
        IsLegal history →
        IsLegal (after_decision history entry (decision_on history limit entry.operation)) }
{}
