ghost use Rattle.std.specs.Prelude.{◌≡◌, ℕ, List, sum};
ghost use Rattle.hamming_model.specs.Codes.{IsCode, distance};
ghost use Rattle.hamming_model.specs.Layouts.{IsLayout};
ghost use Rattle.threshold_model.specs.Finding.{part_distances};

/// The Hamming distance of two codes is the sum of their distances at the parts of any layout.
pub fn distance_is_the_sum_of_the_parts()
    ensures sum { (bits : ℕ) (layout : List (List ℕ)) (code query : List ℕ) →
        IsLayout bits layout → IsCode bits code → IsCode bits query →
        distance code query ≡ sum (part_distances layout code query) }
{}
