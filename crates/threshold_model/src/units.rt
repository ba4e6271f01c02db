ghost use Rattle.std.specs.Prelude.{◌≡◌, ◌+◌, ◌<◌, ◌↔◌, ℕ, ℤ, pos, ◌≤ℤ◌, List, sum, length, map, All};
ghost use Rattle.threshold_model.specs.Vectors.{IsVector, units_of};

/// A vector allows tau + 1 distances in all, a threshold allows those up to it, and no threshold is
/// greater than tau.
pub fn vector_allows_tau_and_one_units()
    ensures sum { (tau parts : ℕ) (thresholds : List ℤ) → IsVector tau parts thresholds →
        sum (map units_of thresholds) ≡ tau + 1 }
    ensures size { (tau parts : ℕ) (thresholds : List ℤ) → IsVector tau parts thresholds →
        length (map units_of thresholds) ≡ parts }
    ensures within { (distance : ℕ) (threshold : ℤ) →
        (pos distance ≤ℤ threshold) ↔ (distance < units_of threshold) }
    ensures most { (tau parts : ℕ) (thresholds : List ℤ) → IsVector tau parts thresholds →
        All (λ threshold. threshold ≤ℤ pos tau) thresholds }
{}
