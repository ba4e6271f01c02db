ghost use Rattle.std.specs.Prelude.{◌≡◌, ℕ, ℤ, List};
ghost use Rattle.threshold_model.specs.Vectors.{IsChoice, IsLeast, cost};

/// The first of the cheapest vectors is one of a kind, and so is the least cost, which is its cost.
pub fn choice_is_unique()
    ensures choice { (count : ℕ → ℕ → ℕ) (tau parts : ℕ) (one other : List ℤ) →
        IsChoice count tau parts one → IsChoice count tau parts other → one ≡ other }
    ensures least { (count : ℕ → ℕ → ℕ) (tau parts one other : ℕ) →
        IsLeast count tau parts one → IsLeast count tau parts other → one ≡ other }
    ensures cost { (count : ℕ → ℕ → ℕ) (tau parts : ℕ) (thresholds : List ℤ) →
        IsChoice count tau parts thresholds → IsLeast count tau parts (cost count thresholds) }
{}
