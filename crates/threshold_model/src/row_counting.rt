ghost use Rattle.std.specs.Prelude.{◌≡◌, ◌≤◌, ℕ, List, length};
ghost use Rattle.threshold_model.specs.Vectors.{row_counts, NeverFalls};

/// The counts of rows at the parts of a layout: none at the radius -1, never fewer at a greater one,
/// and never more than there are rows.
pub fn counts_of_rows_are_lawful()
    ensures starts { (rows : List (ℕ × List ℕ)) (layout : List (List ℕ)) (query : List ℕ) →
        (part : ℕ) → row_counts rows layout query part 0 ≡ 0 }
    ensures rises { (rows : List (ℕ × List ℕ)) (layout : List (List ℕ)) (query : List ℕ) →
        (part : ℕ) → NeverFalls (row_counts rows layout query part) }
    ensures most { (rows : List (ℕ × List ℕ)) (layout : List (List ℕ)) (query : List ℕ) →
        (part units : ℕ) → row_counts rows layout query part units ≤ length rows }
{}
