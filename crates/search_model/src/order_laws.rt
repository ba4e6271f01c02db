ghost use Rattle.std.specs.Prelude.{◌≡◌, ◌<◌, ◌≤◌, ℕ, ℤ, List, ◌++◌, length, slice_index_or};
ghost use Rattle.std.specs.List.Sorted.{IsPermutation};
ghost use Rattle.hamming_model.specs.declared.hit.Hit.{Hit};
ghost use Rattle.hamming_model.specs.Order.{occurrences};
ghost use Rattle.hamming_model.specs.Scan.{in_order};
ghost use Rattle.search_model.specs.Reading.{HasSame, number_read};
ghost use Rattle.search_model.specs.Keeping.{hits_kept, hits_of_parts};

/// Law: the list in order depends only on how often each hit stands in a list; it is as long, and its
/// distances don't fall.
pub fn order_follows_the_hits()
    ensures counted { (xs ys : List Hit) →
        ((hit : Hit) → occurrences hit xs ≡ occurrences hit ys) → in_order xs ≡ in_order ys }
    ensures same { (xs ys : List Hit) → HasSame xs ys → in_order xs ≡ in_order ys }
    ensures permuted { (xs ys rest : List Hit) →
        IsPermutation xs ys → in_order (xs ++ rest) ≡ in_order (ys ++ rest) }
    ensures turned { (xs ys : List Hit) → in_order (xs ++ ys) ≡ in_order (ys ++ xs) }
    ensures size { (xs : List Hit) → length (in_order xs) ≡ length xs }
    ensures ascends { (xs : List Hit) (first second : ℕ) (default : Hit) →
        first ≤ second → second < length xs →
        (slice_index_or (in_order xs) first default).dist
        ≤ (slice_index_or (in_order xs) second default).dist }
{}

/// Law: no more hits are kept than rows are read.
pub fn hits_are_few()
    ensures of_a_part { (layout : List (List ℕ)) (thresholds : List ℤ) (query : List ℕ)
        (tau part : ℕ) (rows : List (ℕ × List ℕ)) →
        length (hits_kept layout thresholds query tau part rows) ≤ length rows }
    ensures of_parts { (layout : List (List ℕ)) (thresholds : List ℤ) (query : List ℕ)
        (tau part : ℕ) (read : List (List (ℕ × List ℕ))) →
        length (hits_of_parts layout thresholds query tau part read) ≤ number_read read }
{}
