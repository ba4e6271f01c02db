ghost use Rattle.std.specs.Prelude.{◌≡◌, ℕ, ◌+◌, ◌%◌, ◌^◌, ◌<◌, ◌≤◌, ◌↔◌, IsTrue, MatchOption};
ghost use Rattle.hamming_model.specs.declared.limits.TheConstants.{PART_WIDTH_MOST};
ghost use Rattle.ball_walk.specs.Balls.{value_distance};
ghost use Rattle.ball_walk.specs.Walk.{IsNextAfter, HasNoneAfter};

use crate::distance::value_distance;

// The least value of this width above `last` that is at least and at most so far from `value`. Where
// the last digit can't be raised, the digits before it are, and the last one is the least that fits:
// each digit is looked at once.
pub(crate) fn next_after(value: u16, width: u32, last: u16, least: u32, most: u32) -> Option<u16>
    requires width { width ≤ PART_WIDTH_MOST }
    requires last { last < 2 ^ width }
    requires order { least ≤ most }
    ensures { MatchOption result (HasNoneAfter value width last least most)
        (IsNextAfter value width last least most) }
{
    if width == 0 {
        return None;
    }
    if can_raise(last, value, least, most) {
        return Some(last + 1);
    }
    let high = match next_after(
        value / 2,
        width - 1,
        last / 2,
        least.saturating_sub(1),
        most,
    ) {
        Some(high) => high,
        None => return None,
    };
    if is_between(2 * high, value, least, most) {
        Some(2 * high)
    } else {
        Some(2 * high + 1)
    }
}

// Whether the last digit of a value is 0, and raising it gives a value at least and at most so far
// away.
fn can_raise(last: u16, value: u16, least: u32, most: u32) -> bool
    requires { last < 65535 }
    ensures { let apart = value_distance (last + 1) value in
        IsTrue result ↔ (last % 2 ≡ 0) × (least ≤ apart) × (apart ≤ most) }
{
    last % 2 == 0 && is_between(last + 1, value, least, most)
}

// Whether a value is at least and at most so far from another.
pub(crate) fn is_between(other: u16, value: u16, least: u32, most: u32) -> bool
    ensures { let apart = value_distance other value in
        IsTrue result ↔ (least ≤ apart) × (apart ≤ most) }
{
    let apart = value_distance(other, value);
    least <= apart && apart <= most
}
