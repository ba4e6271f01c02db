ghost use Rattle.std.specs.Prelude.{◌≡◌, ◌<◌, ℕ, ℤ, List, map, take, All};
ghost use Rattle.hamming_model.specs.Codes.{StandsFor};
ghost use Rattle.hamming_model.specs.Layouts.{IsLayout, part_value, part_distance};
ghost use Rattle.hamming_model.specs.Scan.{hit_of};
ghost use Rattle.hamming_model.specs.Stored.{stored_rows, AreCodeRows};
ghost use Rattle.threshold_model.specs.Finding.{part_distances};
ghost use Rattle.search_model.specs.Reading.{unpadded};
ghost use Rattle.search_model.specs.Keeping.{is_kept};

/// Law: codes that are kept with zeros after them have, at the parts of a layout, the values and the
/// distances of the codes, so a row with such a code is kept where the row is, as the same hit.
pub fn stored_rows_search_alike()
    ensures taken { (words bits : ℕ) (stored code : List ℕ) →
        StandsFor words bits stored code → take bits stored ≡ code }
    ensures rows { (bits positions : ℕ) (rows : List (ℕ × List ℕ)) → AreCodeRows bits rows →
        map (unpadded bits) (stored_rows positions rows) ≡ rows }
    ensures values { (words bits : ℕ) (stored code part : List ℕ) →
        StandsFor words bits stored code → All (λ position. position < bits) part →
        part_value stored part ≡ part_value code part }
    ensures apart { (words bits : ℕ) (stored other code query part : List ℕ) →
        StandsFor words bits stored code → StandsFor words bits other query →
        All (λ position. position < bits) part →
        part_distance part stored other ≡ part_distance part code query }
    ensures parts { (words bits : ℕ) (layout : List (List ℕ)) (stored other code query : List ℕ) →
        IsLayout bits layout → StandsFor words bits stored code → StandsFor words bits other query →
        part_distances layout stored other ≡ part_distances layout code query }
    ensures kept { (words bits tau part : ℕ) (layout : List (List ℕ)) (thresholds : List ℤ)
        (row : ℕ × List ℕ) (other code query : List ℕ) →
        IsLayout bits layout → StandsFor words bits row.1 code → StandsFor words bits other query →
        is_kept layout thresholds other tau part row
        ≡ is_kept layout thresholds query tau part (unpadded bits row) }
    ensures hits { (words bits : ℕ) (row : ℕ × List ℕ) (other code query : List ℕ) →
        StandsFor words bits row.1 code → StandsFor words bits other query →
        hit_of other row ≡ hit_of query (unpadded bits row) }
{}
