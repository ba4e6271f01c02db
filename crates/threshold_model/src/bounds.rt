ghost use Rattle.std.specs.Prelude.{◌≡◌, ◌+◌, ◌*◌, ◌<◌, ◌≤◌, ℕ, ℤ, Option, Some, None};
ghost use Rattle.std.specs.Prelude.{List, [], length};
ghost use Rattle.hamming_model.specs.Scan.{Ask, Range};
ghost use Rattle.threshold_model.specs.Vectors.{IsLeast, NeverFalls, row_counts};
ghost use Rattle.threshold_model.specs.Bounds.{IsLeastUpTo, IsBoundOf, IsPlanOf};
ghost use Rattle.threshold_model.specs.Bounds.{IsUnitsUpTo, IsUnitsOf, values_of_parts};

/// A question has one bound, one plan and one number of units on the rows of a shard.
pub fn bounds_are_unique()
    ensures sum { (counts : ℕ → ℕ → ℕ) (parts radii one other : ℕ) →
        IsLeastUpTo counts parts radii one → IsLeastUpTo counts parts radii other → one ≡ other }
    ensures bound { (ask : Ask) (rows : List (ℕ × List ℕ)) (layout : List (List ℕ))
        (last : Option ℕ) (one other : ℕ) →
        IsBoundOf ask rows layout last one → IsBoundOf ask rows layout last other → one ≡ other }
    ensures plan { (ask : Ask) (rows : List (ℕ × List ℕ)) (layout : List (List ℕ)) (last : Option ℕ)
        (first second : List ℤ) (one other : ℕ) →
        IsPlanOf ask rows layout last first one → IsPlanOf ask rows layout last second other →
        (first ≡ second) × (one ≡ other) }
    ensures units { (bits : ℕ) (ask : Ask) (rows : List (ℕ × List ℕ)) (layout : List (List ℕ))
        (one other : ℕ) →
        IsUnitsOf bits ask rows layout one → IsUnitsOf bits ask rows layout other → one ≡ other }
{}

/// A bound never falls as hits are given, and the least cost never falls as the radius grows.
pub fn bounds_rise_with_the_radius()
    ensures least { (counts : ℕ → ℕ → ℕ) (parts nearer farther one other : ℕ) →
        ((part : ℕ) → part < parts → NeverFalls (counts part)) → nearer ≤ farther →
        IsLeast counts nearer parts one → IsLeast counts farther parts other → one ≤ other }
    ensures sum { (counts : ℕ → ℕ → ℕ) (parts fewer more one other : ℕ) → fewer ≤ more →
        IsLeastUpTo counts parts fewer one → IsLeastUpTo counts parts more other → one ≤ other }
    ensures bound { (ask : Ask) (rows : List (ℕ × List ℕ)) (layout : List (List ℕ))
        (nearer farther one other : ℕ) → nearer ≤ farther →
        IsBoundOf ask rows layout (Some nearer) one →
        IsBoundOf ask rows layout (Some farther) other → one ≤ other }
    ensures first { (ask : Ask) (rows : List (ℕ × List ℕ)) (layout : List (List ℕ))
        (last : Option ℕ) (one other : ℕ) →
        IsBoundOf ask rows layout None one → IsBoundOf ask rows layout last other → one ≤ other }
{}

/// A radius costs at most the number of rows, and nothing where there are none.
pub fn bounds_follow_the_rows()
    ensures range { (tau : ℕ) (code : List ℕ) (rows : List (ℕ × List ℕ)) (layout : List (List ℕ))
        (last : Option ℕ) (bound : ℕ) → 0 < length layout →
        IsBoundOf (Range tau code) rows layout last bound → bound ≤ length rows }
    ensures sum { (code : List ℕ) (rows : List (ℕ × List ℕ)) (layout : List (List ℕ))
        (radii sum : ℕ) → 0 < length layout →
        IsLeastUpTo (row_counts rows layout code) (length layout) radii sum →
        sum ≤ radii * length rows }
    ensures none { (ask : Ask) (layout : List (List ℕ)) (last : Option ℕ) (bound : ℕ) →
        IsBoundOf ask [] layout last bound → bound ≡ 0 }
{}

/// The units at so many radii are for each of them the values of all parts and one, and twice the
/// least costs in all.
pub fn units_are_values_and_costs()
    ensures { (counts : ℕ → ℕ → ℕ) (layout : List (List ℕ)) (radii sum : ℕ) →
        IsLeastUpTo counts (length layout) radii sum →
        IsUnitsUpTo counts layout radii (radii * (values_of_parts layout + 1) + 2 * sum) }
{}
