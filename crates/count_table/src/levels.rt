ghost use Rattle.std.specs.Prelude.{◌≡◌, ◌^◌, ◌<◌, ◌≤◌, All, length, sum_by, slice_index};
ghost use Rattle.std.specs.Int.RustNames.{bit_xor};
ghost use Rattle.ball_walk.specs.Balls.{ring};
ghost use Rattle.hamming_model.specs.declared.limits.TheConstants.{ENTRIES_MOST};
ghost use Rattle.count_table.specs.Copies.{count_near, AreLevels};
ghost use Rattle.count_table.specs.Kept.{AreKeptCopies, kept_copies};

use ball_walk::{Flips, flips_make_rings};

// Writes to each place of `out` how many copies there are of values nearer to `value` than that many units.
pub(crate) fn count_rings(copies: &[u32], flips: &Flips, value: u16, out: &mut [u32])
    requires { AreKeptCopies flips.now value copies.now }
    ensures { AreLevels (kept_copies flips.now copies.now) value out.new }
{
    if out.is_empty() {
        return;
    }
    out[0] = 0;
    for apart in 0..out.len() - 1 {
        out[apart + 1] = out[apart] + count_ring(copies, flips, value, apart);
    }
}

// The copies of the values nearer to `value` than so many units, added up.
pub(crate) fn count_within(copies: &[u32], flips: &Flips, value: u16, units: usize) -> u32
    requires { AreKeptCopies flips.now value copies.now }
    ensures { result ≡ count_near (kept_copies flips.now copies.now) value units }
{
    let mut count: u32 = 0;
    for apart in 0..units {
        count += count_ring(copies, flips, value, apart);
    }
    count
}

// The copies of the values at one distance from `value`, added up.
fn count_ring(copies: &[u32], flips: &Flips, value: u16, apart: usize) -> u32
    requires { AreKeptCopies flips.now value copies.now }
    ensures { result ≡ sum_by (slice_index copies.now) (ring value flips.now apart) }
{
    flips_make_rings();
    count_flipped(copies, value, flips.ring(apart))
}

// The copies of the values that a value becomes by these flips, added up.
fn count_flipped(copies: &[u32], value: u16, flips: &[u16]) -> u32
    requires in_range { All (λ flip. bit_xor value flip < length copies.now) flips.now }
    requires few { sum_by (λ flip. slice_index copies.now (bit_xor value flip)) flips.now
        ≤ ENTRIES_MOST }
    ensures { result
        ≡ sum_by (λ flip. slice_index copies.now (bit_xor value flip)) flips.now }
{
    let mut count: u32 = 0;
    for flip in flips {
        count += copies[usize::from(value ^ *flip)];
    }
    count
}
