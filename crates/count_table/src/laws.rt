ghost use Rattle.std.specs.Prelude.{◌≡◌, ℕ, ◌+◌, ◌^◌, ◌<◌, List, [], ◌∷◌, ◌++◌, All, length, count_by};
ghost use Rattle.std.specs.List.{fold};
ghost use Rattle.ball_walk.specs.Balls.{is_near};
ghost use Rattle.count_table.specs.Copies.{empty_table, copies_at, total_of, with_one, without_one, count_near, table_of};

/// Law: where the table is that of a list of values, adding a copy makes it that of the list with the value
/// at any place, and removing one that of the list without it. Added one by one, the values of a list make
/// its table.
pub fn changes_follow_a_list()
    ensures width { (width : ℕ) (items : List ℕ) → (table_of width items).width ≡ width }
    ensures empty { (width : ℕ) → table_of width [] ≡ empty_table width }
    ensures added { (width value : ℕ) (front back : List ℕ) → value < 2 ^ width →
        with_one (table_of width (front ++ back)) value ≡ table_of width (front ++ value ∷ back) }
    ensures removed { (width value : ℕ) (front back : List ℕ) → value < 2 ^ width →
        without_one (table_of width (front ++ value ∷ back)) value
        ≡ table_of width (front ++ back) }
    ensures present { (width value : ℕ) (front back : List ℕ) → value < 2 ^ width →
        0 < copies_at (table_of width (front ++ value ∷ back)) value }
    ensures one_by_one { (width : ℕ) (items : List ℕ) → All (λ item. item < 2 ^ width) items →
        fold with_one (empty_table width) items ≡ table_of width items }
{}

/// Law: in the table of a list of values, the copies within a radius are the items within it, and all copies
/// are all items.
pub fn counts_are_those_of_a_list()
    ensures near { (width value units : ℕ) (items : List ℕ) → All (λ item. item < 2 ^ width) items →
        count_near (table_of width items) value units ≡ count_by (is_near value units) items }
    ensures total { (width : ℕ) (items : List ℕ) → All (λ item. item < 2 ^ width) items →
        total_of (table_of width items) ≡ length items }
{}
