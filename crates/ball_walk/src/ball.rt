ghost use Rattle.std.specs.Prelude.{◌≡◌, ℕ, ◌+◌, ◌^◌, ◌<◌, ◌≤◌, List, [], ◌∷◌, MatchOption, negsuc, ◌≤ℤ◌, min, All, IfSome};
ghost use Rattle.hamming_model.specs.declared.limits.TheConstants.{PART_WIDTH_MOST};
ghost use Rattle.ball_walk.specs.Balls.{ball, ring, radius_units};
ghost use Rattle.ball_walk.specs.Walk.{ring_from};

use crate::next::{is_between, next_after};
use std::marker::Model;

/// The values of a width within a radius of a value, still to be given: nearest first, and those at
/// one distance ascending.
///
/// This is the enumeration of signatures of multi-index hashing (Norouzi, Punjani and Fleet,
/// CVPR 2012).
#[derive(Drop)]
pub struct Ball {
    value: u16,
    width: u32,
    // the distance of the values that come now, and how many distances there are from it on
    apart: u32,
    left: u32,
    // the values at this distance below this one were given
    from: u16,
}

impl Model for Ball {
    ghost use Rattle.std.specs.Prelude.{ℕ, List};
    ghost use Rattle.ball_walk.specs.Walk.{rest_of, IsWalk};

    ghost Value = { List ℕ };

    ghost view = { λ b. rest_of b.value b.width b.apart b.from b.left };

    ghost invariant = { λ b. IsWalk b.value b.width b.apart b.from b.left };
}

impl Ball {
    /// The values of `width` binary digits at most `radius` from `value`: none where the radius is
    /// -1, and all where it is the width or more. It takes no memory.
    pub fn new(value: u16, width: u32, radius: i32) -> Ball
        requires some_width { 0 < width }
        requires small_width { width ≤ PART_WIDTH_MOST }
        requires in_width { value < 2 ^ width }
        requires radius { negsuc 0 ≤ℤ radius }
        ensures values { result ≡ ball value width (radius_units radius) }
        ensures in_width { All (λ other. other < 2 ^ width) result }
    {
        let left = distances_within(width, radius);
        Ball {
            value,
            width,
            apart: 0,
            left,
            from: 0,
        }
    }

    /// The values of `width` binary digits exactly `apart` from `value`, ascending: none where that is more
    /// than the width. It takes no memory.
    pub fn ring(value: u16, width: u32, apart: u32) -> Ball
        requires some_width { 0 < width }
        requires small_width { width ≤ PART_WIDTH_MOST }
        requires in_width { value < 2 ^ width }
        ensures values { result ≡ ring value width apart }
        ensures in_width { All (λ other. other < 2 ^ width) result }
    {
        if apart > width {
            return Ball::new(value, width, -1);
        }
        Ball {
            value,
            width,
            apart,
            left: 1,
            from: 0,
        }
    }

    /// The next value, or `None` exactly after the last.
    pub fn next(&mut self) -> Option<u16>
        ensures { MatchOption result ((self.old ≡ []) × (self.new ≡ []))
            (λ first. self.old ≡ first ∷ self.new) }
    {
        while self.left > 0 {
            match first_from(self.value, self.width, self.apart, self.from) {
                Some(found) => {
                    self.from = found + 1;
                    return Some(found);
                }
                None => {
                    self.apart += 1;
                    self.left -= 1;
                    self.from = 0;
                }
            }
        }
        None
    }
}

/// How many distances of values of this width lie within a radius: of -1 none, and never more than there
/// are.
pub fn distances_within(width: u32, radius: i32) -> u32
    requires width { width ≤ PART_WIDTH_MOST }
    requires radius { negsuc 0 ≤ℤ radius }
    ensures { result ≡ min (radius_units radius) (width + 1) }
{
    if radius < width as i32 {
        (radius + 1) as u32
    } else {
        width + 1
    }
}

// How many values of this width there are.
pub(crate) fn bound_of(width: u32) -> u16
    requires { width ≤ PART_WIDTH_MOST }
    ensures { result ≡ 2 ^ width }
{
    1 << width
}

// The least value from this one on that is so far apart from `value`.
fn first_from(value: u16, width: u32, apart: u32, from: u16) -> Option<u16>
    requires width { width ≤ PART_WIDTH_MOST }
    requires value { value < 2 ^ width }
    requires from { from ≤ 2 ^ width }
    ensures below { IfSome result (λ found. found < 2 ^ width) }
    ensures first { MatchOption result (ring_from value width apart from ≡ [])
        (λ found. ring_from value width apart from
        ≡ found ∷ ring_from value width apart (found + 1)) }
{
    if from >= bound_of(width) {
        return None;
    }
    if is_between(from, value, apart, apart) {
        return Some(from);
    }
    next_after(value, width, from, apart, apart)
}
