ghost use Rattle.std.specs.Prelude.{◌≤◌, ℕ, ℤ, List, length, map};
ghost use Rattle.hamming_model.specs.Codes.{IsCode, distance};
ghost use Rattle.hamming_model.specs.Layouts.{IsLayout};
ghost use Rattle.threshold_model.specs.Vectors.{IsVector, units_of};
ghost use Rattle.threshold_model.specs.Finding.{part_distances, first_part, IsFirstFound};

/// The general pigeonhole principle of GPH (Qin et al., ICDE 2018): a code within tau of the query is
/// within its threshold at some part, for each layout and each vector; and this is the first such part.
pub fn near_code_is_found()
    ensures found { (bits tau : ℕ) (layout : List (List ℕ)) (thresholds : List ℤ) →
        (code query : List ℕ) → IsLayout bits layout → IsCode bits code → IsCode bits query →
        IsVector tau (length layout) thresholds → distance code query ≤ tau →
        IsFirstFound thresholds (part_distances layout code query)
        (first_part (map units_of thresholds) (part_distances layout code query)) }
{}
