ghost use Rattle.std.specs.Prelude.{◌≡◌, ◌<◌, ◌≤◌, ℕ, List, length};
ghost use Rattle.threshold_model.specs.Vectors.{IsVector, IsLeast, row_counts};
ghost use Rattle.threshold_model.specs.Finding.{at_first_part};

/// The vector that searches one part alone is allowed, so the least cost is at most the greatest
/// count: for counts of rows, the number of rows.
pub fn least_is_at_most_the_greatest_count()
    ensures allowed { (tau parts : ℕ) → 0 < parts → IsVector tau parts (at_first_part tau parts) }
    ensures counts { (count : ℕ → ℕ → ℕ) (tau parts most least : ℕ) → 0 < parts →
        ((part : ℕ) → part < parts → count part 0 ≡ 0) →
        ((part units : ℕ) → part < parts → count part units ≤ most) →
        IsLeast count tau parts least → least ≤ most }
    ensures rows { (rows : List (ℕ × List ℕ)) (layout : List (List ℕ)) (query : List ℕ) →
        (tau least : ℕ) →
        0 < length layout → IsLeast (row_counts rows layout query) tau (length layout) least →
        least ≤ length rows }
{}
