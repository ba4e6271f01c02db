ghost use Rattle.std.specs.Prelude.{◌≡◌, ◌+◌, ℕ, ℤ, List, [], ◌∷◌, ◌++◌, Bool, true, false, if◌then◌else◌};
ghost use Rattle.hamming_model.specs.declared.hit.Hit.{Hit};
ghost use Rattle.hamming_model.specs.Scan.{hit_of};
ghost use Rattle.search_model.specs.Reading.{number_read};
ghost use Rattle.search_model.specs.Keeping.{is_kept, hits_kept, hits_of_parts};

/// Law: one row is read. The hits found and those that the rest will keep stay the same list where the
/// row's hit is pushed if the row is kept, and nothing is pushed if it isn't; one row less is left.
pub fn a_row_is_read()
    ensures kept { (layout : List (List ℕ)) (thresholds : List ℤ) (query : List ℕ) (tau part : ℕ)
        (row : ℕ × List ℕ) (rest : List (ℕ × List ℕ)) (read : List (List (ℕ × List ℕ)))
        (found : List Hit) → is_kept layout thresholds query tau part row ≡ true →
        found ++ hits_of_parts layout thresholds query tau part ((row ∷ rest) ∷ read)
        ≡ (found ++ hit_of query row ∷ [])
        ++ hits_of_parts layout thresholds query tau part (rest ∷ read) }
    ensures passed { (layout : List (List ℕ)) (thresholds : List ℤ) (query : List ℕ) (tau part : ℕ)
        (row : ℕ × List ℕ) (rest : List (ℕ × List ℕ)) (read : List (List (ℕ × List ℕ))) →
        is_kept layout thresholds query tau part row ≡ false →
        hits_of_parts layout thresholds query tau part ((row ∷ rest) ∷ read)
        ≡ hits_of_parts layout thresholds query tau part (rest ∷ read) }
    ensures left { (row : ℕ × List ℕ) (rest : List (ℕ × List ℕ))
        (read : List (List (ℕ × List ℕ))) →
        number_read ((row ∷ rest) ∷ read) ≡ number_read (rest ∷ read) + 1 }
    ensures so_far { (layout : List (List ℕ)) (thresholds : List ℤ) (query : List ℕ) (tau part : ℕ)
        (rows_before : List (ℕ × List ℕ)) (row : ℕ × List ℕ) →
        hits_kept layout thresholds query tau part (rows_before ++ row ∷ [])
        ≡ hits_kept layout thresholds query tau part rows_before
        ++ (if is_kept layout thresholds query tau part row then hit_of query row ∷ [] else []) }
{}

/// Law: a part with no row left is done with, and rows that are joined are read one list after the other.
pub fn a_part_is_read_to_its_end()
    ensures next { (layout : List (List ℕ)) (thresholds : List ℤ) (query : List ℕ) (tau part : ℕ)
        (read : List (List (ℕ × List ℕ))) →
        hits_of_parts layout thresholds query tau part ([] ∷ read)
        ≡ hits_of_parts layout thresholds query tau (part + 1) read }
    ensures left { (read : List (List (ℕ × List ℕ))) → number_read ([] ∷ read) ≡ number_read read }
    ensures joined { (layout : List (List ℕ)) (thresholds : List ℤ) (query : List ℕ) (tau part : ℕ)
        (xs ys : List (ℕ × List ℕ)) →
        hits_kept layout thresholds query tau part (xs ++ ys)
        ≡ hits_kept layout thresholds query tau part xs
        ++ hits_kept layout thresholds query tau part ys }
{}
