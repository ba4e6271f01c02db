ghost use Rattle.std.specs.Prelude.{◌≡◌, ℕ, ◌^◌, ◌<◌, ◌==◌, ◌&&◌, nat_lt, if◌then◌else◌, List, All, count_by, sum_by, length, slice_index};
ghost use Rattle.std.specs.Int.Digits.{number_from_digits};
ghost use Rattle.hamming_model.specs.Codes.{bits_of, distance, IsCode};
ghost use Rattle.ball_walk.specs.Balls.{value_distance, is_near, values_near, ball, ring, IsBefore};
ghost use Rattle.ball_walk.specs.Flips.{flipped_ball, flipped_ring};

/// Law: the distance of two values of a width is the Hamming distance of their binary digits, and that of
/// the numbers that two codes spell is the distance of the codes.
pub fn distance_counts_digits()
    ensures of_values { (width a b : ℕ) → a < 2 ^ width → b < 2 ^ width →
        value_distance a b ≡ distance (bits_of width a) (bits_of width b) }
    ensures of_codes { (width : ℕ) (one other : List ℕ) → IsCode width one → IsCode width other →
        value_distance (number_from_digits 2 one) (number_from_digits 2 other)
        ≡ distance one other }
    ensures in_width { (width : ℕ) (code : List ℕ) → IsCode width code →
        number_from_digits 2 code < 2 ^ width }
{}

/// Law: a ball has each value of the width within its radius exactly once, and no other number.
pub fn ball_has_each_once()
    ensures { (value width units other : ℕ) →
        count_by (λ x. x == other) (ball value width units)
        ≡ (if nat_lt other (2 ^ width) && is_near value units other then 1 else 0) }
{}

/// Law: a ball is in order of distance and then of value.
pub fn ball_is_in_order()
    ensures { (value width units first second : ℕ) → first < second →
        second < length (ball value width units) →
        IsBefore value (slice_index (ball value width units) first)
        (slice_index (ball value width units) second) }
{}

/// Law: what is added up over a ball is what is added up over all values of the width that are near.
pub fn ball_sums_add_up()
    ensures { (f : ℕ → ℕ) (value width units : ℕ) →
        sum_by f (ball value width units) ≡ sum_by f (values_near value width units) }
{}

/// Law: the items that have a value of the ball, added up over the ball, are the items within the radius.
pub fn items_within_add_up()
    ensures { (items : List ℕ) (value width units : ℕ) → All (λ item. item < 2 ^ width) items →
        sum_by (λ other. count_by (λ item. item == other) items) (ball value width units)
        ≡ count_by (is_near value units) items }
{}

/// Law: what is added up over the values that the flips with so many ones make of a value is what is added up
/// over the ring at that distance, and over all fewer than so many ones what is added up over the ball.
pub fn flips_make_rings()
    ensures rings { (f : ℕ → ℕ) (value width apart : ℕ) → value < 2 ^ width →
        sum_by f (flipped_ring value width apart) ≡ sum_by f (ring value width apart) }
    ensures balls { (f : ℕ → ℕ) (value width units : ℕ) → value < 2 ^ width →
        sum_by f (flipped_ball value width units) ≡ sum_by f (ball value width units) }
    ensures in_width { (value width apart : ℕ) → value < 2 ^ width →
        All (λ other. other < 2 ^ width) (flipped_ring value width apart) }
{}
