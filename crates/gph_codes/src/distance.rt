//! The Hamming distance of words, and what it is to the codes that they stand for.

ghost use Rattle.std.specs.Prelude.{◌≡◌, ℕ, ◌*◌, ◌≤◌, List};
ghost use Rattle.hamming_model.specs.Codes.{bits_of, distance};
ghost use Rattle.hamming_model.specs.Layouts.{IsLayout};
ghost use Rattle.hamming_model.specs.declared.limits.TheConstants.{WORDS_MOST};
ghost use Rattle.gph_codes.specs.Laws.{KeepsDistance, StandsForOne, MasksParts};
ghost use Rattle.gph_codes.specs.Masks.{distance_under};
ghost use Rattle.gph_codes.specs.Words.{word_bits};

/// At how many bits the words of two codes differ.
pub fn word_distance<const W: usize>(one: &[u64; W], other: &[u64; W]) -> u32
    requires { W ≤ WORDS_MOST }
    ensures { result ≡ distance (word_bits one.now) (word_bits other.now) }
{
    let mut counted = 0;
    for place in 0..W {
        counted += differing(one[place], other[place]);
    }
    counted
}

// At how many of their 64 bits two words differ.
fn differing(one: u64, other: u64) -> u32
    ensures count { result ≡ distance (bits_of 64 one) (bits_of 64 other) }
    ensures bound { result ≤ 64 }
{
    (one ^ other).count_ones()
}

/// At how many of the bits where a mask has a one the words of two codes differ.
pub fn word_distance_under<const W: usize>(mask: &[u64; W], one: &[u64; W], other: &[u64; W]) -> u32
    requires { W ≤ WORDS_MOST }
    ensures distance { result
        ≡ distance_under (word_bits mask.now) (word_bits one.now) (word_bits other.now) }
    ensures few { result ≤ 64 * W }
{
    let mut counted = 0;
    for word in 0..W {
        counted += differing_under(mask[word], one[word], other[word]);
    }
    counted
}

// At how many of the bits where a mask has a one two words differ.
fn differing_under(mask: u64, one: u64, other: u64) -> u32
    ensures count { result ≡ distance_under (bits_of 64 mask) (bits_of 64 one) (bits_of 64 other) }
    ensures bound { result ≤ 64 }
{
    ((one ^ other) & mask).count_ones()
}

/// What words keep past a code's own bits adds nothing to the distance.
pub fn distance_of_codes()
    ensures { (words bits : ℕ) → KeepsDistance words bits }
{}

/// What words keep stands for one code of so many bits, and no other words stand for that code.
pub fn one_code()
    ensures { (words bits : ℕ) → StandsForOne words bits }
{}

/// The distance of two codes at a part of a layout is their distance under the part's mask.
pub fn part_distance_is_under_the_mask()
    ensures { (size bits : ℕ) (layout : List (List ℕ)) → IsLayout bits layout → bits ≤ size →
        MasksParts size bits layout }
{}
