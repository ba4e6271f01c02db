ghost use Rattle.std.specs.Prelude.{◌≡◌, ℕ, ◌%◌, ◌<◌, ◌≤◌, List, [], ◌∷◌, ◌++◌, length};
ghost use Rattle.hamming_model.specs.Codes.{IsCode};
ghost use Rattle.hamming_model.specs.History.{JournalEntry, Operation, Fits, rows_of, shard_rows};
ghost use Rattle.hamming_model.specs.Layouts.{part_count, part_value};
ghost use Rattle.entry_log.specs.Meaning.{operation_key};
ghost use Rattle.part_layout.specs.Laid.{Laid, part_at};
ghost use Rattle.count_table.specs.Copies.{count_near};
ghost use Rattle.shard_version.specs.Contents.{Contents, IsVersion, after_entry, changed_in, empty_of};
ghost use Rattle.shard_version.specs.Prefixes.{after_entries, prefix_of};
ghost use Rattle.shard_version.specs.Tables.{counts_of};

use count_table::counts_are_those_of_a_list;

/// Law: the rows of a history that one shard holds change with each entry as the shard's version does, so
/// a version that has taken in the entries of a history has the shard's rows of it, at most one for each
/// entry. What fits the rows of the history fits the shard's, where it is of the shard.
pub fn versions_follow_the_history()
    ensures step { (shard shards : ℕ) (history : List JournalEntry) (entry : JournalEntry) →
        shard_rows shard shards (rows_of (history ++ entry ∷ []))
        ≡ changed_in shard shards (shard_rows shard shards (rows_of history)) entry.operation }
    ensures next { (shard shards : ℕ) (layout : Laid) (history : List JournalEntry) →
        (entry : JournalEntry) →
        after_entry (prefix_of shard shards layout history) entry
        ≡ prefix_of shard shards layout (history ++ entry ∷ []) }
    ensures prefix { (shard shards : ℕ) (layout : Laid) (history : List JournalEntry) →
        after_entries (empty_of shard shards layout) history
        ≡ prefix_of shard shards layout history }
    ensures few { (shard shards : ℕ) (history : List JournalEntry) →
        length (shard_rows shard shards (rows_of history)) ≤ length history }
    ensures fits { (shard shards : ℕ) (rows : List (ℕ × List ℕ)) (operation : Operation) →
        Fits rows operation → operation_key operation % shards ≡ shard →
        Fits (shard_rows shard shards rows) operation }
{}

/// Law: the counts of a part of a version, within a radius of the value of a query, are how many of its
/// rows are as near to the query at the part.
pub fn counts_are_of_the_rows()
    ensures { (version : Contents) (part units : ℕ) (query : List ℕ) →
        IsVersion version → IsCode version.layout.bits query →
        count_near (counts_of version part) (part_value query (part_at version.layout part)) units
        ≡ part_count version.rows (part_at version.layout part) query units }
{
    counts_are_those_of_a_list();
}
