ghost use Rattle.std.specs.Prelude.{◌≡◌, ℕ, ◌+◌, List, ◌++◌, length, None, option_map};
ghost use Rattle.std.specs.List.Sorted.{IsStrictlySortedBy};
ghost use Rattle.std.specs.Map.{keys_of};
ghost use Rattle.std.specs.Ordering.{nat_cmp};
ghost use Rattle.std.specs.BTreeMap.{insert_entry};
ghost use Rattle.hamming_model.specs.Codes.{IsCode, padded};
ghost use Rattle.hamming_model.specs.History.{JournalEntry, code_at, rows_from, rows_of};
ghost use Rattle.hamming_model.specs.Scan.{scan};
ghost use Rattle.hamming_model.specs.Stored.{stored_rows, AreCodeRows, AreCodes};

/// Law: codes that are kept with zeros after them give every scan, look-up and insertion that the
/// codes give.
pub fn stored_rows_scan_alike()
    ensures scans { (bits positions : ℕ) (rows : List (ℕ × List ℕ)) (query : List ℕ) (radius : ℕ) →
        AreCodeRows bits rows → IsCode bits query →
        scan (stored_rows positions rows) (padded positions query) radius ≡ scan rows query radius }
    ensures codes { (positions : ℕ) (rows : List (ℕ × List ℕ)) (key : ℕ) →
        code_at (stored_rows positions rows) key
        ≡ option_map (padded positions) (code_at rows key) }
    ensures inserted { (positions : ℕ) (rows : List (ℕ × List ℕ)) (key : ℕ) (code : List ℕ) →
        insert_entry nat_cmp (stored_rows positions rows) key (padded positions code)
        ≡ stored_rows positions (insert_entry nat_cmp rows key code) }
{}

/// Law: the rows of a history follow from those of its beginning and what comes after; they have
/// the entries' codes and ascend by key, and a row with a new key is one more.
pub fn rows_follow_the_history()
    ensures appended { (history more : List JournalEntry) →
        rows_of (history ++ more) ≡ rows_from (rows_of history) more }
    ensures codes { (bits : ℕ) (history : List JournalEntry) →
        AreCodes bits history → AreCodeRows bits (rows_of history) }
    ensures ascending { (history : List JournalEntry) →
        IsStrictlySortedBy nat_cmp (keys_of (rows_of history)) }
    ensures longer { (rows : List (ℕ × List ℕ)) (key : ℕ) (code : List ℕ) →
        code_at rows key ≡ None → length (insert_entry nat_cmp rows key code) ≡ length rows + 1 }
{}
