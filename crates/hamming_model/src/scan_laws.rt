ghost use Rattle.std.specs.Prelude.{◌≡◌, ◌↔◌, ℕ, List, count_by, false, true};
ghost use Rattle.std.specs.List.Sorted.{IsPermutation, IsSorted};
ghost use Rattle.std.specs.Ordering.{is_gt};
ghost use Rattle.hamming_model.specs.declared.hit.Hit.{Hit};
ghost use Rattle.hamming_model.specs.Scan.{hit_cmp, in_order, scan};
ghost use Rattle.hamming_model.specs.Order.{Ascends, IsFirst, is_hit_row, occurrences};

use crate::hit::Hit;

/// Law: a list of hits has exactly one order, by distance and then by key, and a sort gives it.
pub fn the_one_order()
    ensures derived { (a b : Hit) → ⟦<Hit as Ord>⟧.cmp a b ≡ hit_cmp a b }
    ensures only { (xs hits : List Hit) →
        IsPermutation xs hits → IsSorted hit_cmp hits → hits ≡ in_order xs }
    ensures keeps { (xs : List Hit) → IsPermutation xs (in_order xs) }
    ensures ascends { (xs : List Hit) → IsSorted hit_cmp (in_order xs) }
{}

/// Law: a scan has each hit as often as a row with its key lies at its distance and within the
/// radius, and it is sorted.
pub fn scan_lists_the_near_rows()
    ensures each { (rows : List (ℕ × List ℕ)) (query : List ℕ) (radius : ℕ) (hit : Hit) →
        occurrences hit (scan rows query radius) ≡ count_by (is_hit_row hit query radius) rows }
    ensures ascends { (rows : List (ℕ × List ℕ)) (query : List ℕ) (radius : ℕ) →
        IsSorted hit_cmp (scan rows query radius) }
{}

/// Law: of two hits at most one is after the other, what isn't after the first of some hits is after none
/// of them, and hits that ascend are those that are sorted.
pub fn hits_ascend()
    ensures one { (a b : Hit) → is_gt (hit_cmp a b) ≡ true → is_gt (hit_cmp b a) ≡ false }
    ensures first { (a b : Hit) (hits : List Hit) →
        is_gt (hit_cmp a b) ≡ false → IsFirst b hits → IsFirst a hits }
    ensures sorted { (hits : List Hit) → Ascends hits ↔ IsSorted hit_cmp hits }
    ensures in_order { (hits : List Hit) → Ascends (in_order hits) }
{}
