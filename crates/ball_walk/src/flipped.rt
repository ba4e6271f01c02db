ghost use Rattle.std.specs.Prelude.{◌≡◌, ℕ, ◌+◌, ◌^◌, ◌<◌, ◌≤◌, List, [], ◌∷◌, MatchOption, negsuc, ◌≤ℤ◌, All};
ghost use Rattle.ball_walk.specs.Balls.{radius_units};
ghost use Rattle.ball_walk.specs.Flips.{flipped_ball, flipped_ring};

use crate::ball::distances_within;
use crate::flips::Flips;
use std::marker::Model;

/// The values of a width within a radius of a value, or at one distance from it, still to be given: ring
/// by ring, each in the order of the flips that make them.
///
/// It reads a table of flips of its width, so the next value costs the same wherever it stands.
#[derive(Drop)]
pub struct Flipped {
    value: u16,
    width: u32,
    // the place of the next flip, and how many there are from it on
    at: usize,
    left: usize,
}

impl Model for Flipped {
    ghost use Rattle.ball_walk.specs.Flips.{FlippedLeft};
    ghost use Rattle.ball_walk.specs.FlipTable.{flipped_from, IsFlipped};

    ghost Value = { FlippedLeft };

    ghost view = { λ f. record {
      width = f.width;
      values = flipped_from f.value f.width f.at f.left;
    } };

    ghost invariant = { λ f. IsFlipped f.value f.width f.at f.left };
}

impl Flipped {
    /// The values of the width of `flips` at most `radius` from `value`: none where the radius is -1, and all
    /// where it is the width or more. It takes no memory.
    pub fn ball(flips: &Flips, value: u16, radius: i32) -> Flipped
        requires in_width { value < 2 ^ flips.now }
        requires radius { negsuc 0 ≤ℤ radius }
        ensures values { result.values ≡ flipped_ball value flips.now (radius_units radius) }
        ensures width { result.width ≡ flips.now }
        ensures in_width { All (λ other. other < 2 ^ flips.now) result.values }
    {
        let width = flips.width();
        let left = flips.start(distances_within(width, radius));
        Flipped {
            value,
            width,
            at: 0,
            left,
        }
    }

    /// The values of the width of `flips` exactly `apart` from `value`: none where that is more than the
    /// width. It takes no memory.
    pub fn ring(flips: &Flips, value: u16, apart: u32) -> Flipped
        requires in_width { value < 2 ^ flips.now }
        ensures values { result.values ≡ flipped_ring value flips.now apart }
        ensures width { result.width ≡ flips.now }
        ensures in_width { All (λ other. other < 2 ^ flips.now) result.values }
    {
        let width = flips.width();
        if apart > width {
            return Flipped::ball(flips, value, -1);
        }
        let at = flips.start(apart);
        Flipped {
            value,
            width,
            at,
            left: flips.start(apart + 1) - at,
        }
    }

    /// The next value, or `None` exactly after the last. The flips are those of the width.
    pub fn next(&mut self, flips: &Flips) -> Option<u16>
        requires flips { flips.now ≡ self.old.width }
        ensures first { MatchOption result
            ((self.old.values ≡ []) × (self.new.values ≡ []))
            (λ first. self.old.values ≡ first ∷ self.new.values) }
        ensures width { self.new.width ≡ self.old.width }
    {
        if self.left == 0 {
            return None;
        }
        let flip = flips.numbers()[self.at];
        self.at += 1;
        self.left -= 1;
        Some(self.value ^ flip)
    }
}
