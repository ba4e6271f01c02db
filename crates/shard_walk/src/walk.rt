//! A walk over the posting lists of a plan.

ghost use Rattle.std.specs.Prelude.{◌≡◌, ◌+◌, ◌-◌, ◌<◌, ◌≤◌, ◌↔◌, ◌++◌, IsTrue, true, false, min, [], length};
ghost use Rattle.hamming_model.specs.Scan.{in_order, scan};
ghost use Rattle.threshold_model.specs.Bounds.{values_of_parts};
ghost use Rattle.shard_probe.specs.Probed.{KeepCodes};
ghost use Rattle.shard_walk.specs.Planned.{kept_of, parts_of, planned_query};
ghost use Rattle.shard_walk.specs.Walks.{IsWalkPlace, BeginsValue, PassesPart, part_begun, hits_left, reads_left, values_left};

use crate::plan::Plan;
use ball_walk::{Flipped, ball_sums_add_up, flips_make_rings};
use gph_codes::Code;
use read_meter::Steps;
use search_model::{lists_read_by_parts, near_rows_are_kept_once, rows_read_are_the_cost};
use std::marker::Model;

/// Where a search stands: part by part it goes over the values of the ball, and over the posting list of each.
#[derive(Drop)]
pub struct Walk {
    part: usize,
    ball: Flipped,
    // the value whose posting list is read, the next place in it, and its length
    value: u16,
    next: u32,
    size: u32,
}

impl Model for Walk {
    ghost use Rattle.shard_walk.specs.Walks.{Place};

    ghost Value = { Place };

    ghost view = { λ w. record {
      part = w.part;
      width = w.ball.width;
      ball = w.ball.values;
      value = w.value;
      next = w.next;
      size = w.size;
    } };
}

impl Walk {
    /// A walk that has read nothing.
    pub fn start<const W: usize>(plan: &Plan<W>) -> Walk
        ensures place { IsWalkPlace plan.now result }
        ensures hits { in_order (hits_left plan.now result)
            ≡ scan plan.now.version.contents.rows (planned_query plan.now) plan.now.tau }
        ensures reads { reads_left plan.now result ≡ plan.now.least }
        ensures values { values_left plan.now result ≤ values_of_parts (parts_of plan.now) }
    {
        near_rows_are_kept_once();
        rows_read_are_the_cost();
        lists_read_by_parts();
        ball_sums_add_up();
        flips_make_rings();
        plan.parts();
        Walk::at_part(plan, 0)
    }

    /// Whether the posting list that it is in has a posting left.
    pub fn is_in_list(&self) -> bool
        ensures { IsTrue result ↔ self.now.next < self.now.size }
    {
        self.next < self.size
    }

    /// The part that it is in.
    pub fn part(&self) -> usize
        ensures { result ≡ self.now.part }
    {
        self.part
    }

    /// Reads the postings of its posting list that are left, or so many, for one step each. What its part
    /// keeps of them is what `Plan::kept` keeps.
    pub fn read<'p, const W: usize, L>(
        &mut self,
        plan: &'p Plan<W>,
        most: u32,
        steps: &mut Steps<L>,
    ) -> &'p [(u64, Code<W>)]
        requires place { IsWalkPlace plan.now self.old }
        ensures place { IsWalkPlace plan.now self.new }
        ensures number { length result.now ≡ min (self.old.size - self.old.next) most }
        ensures stored { KeepCodes W plan.now.version result.now }
        ensures hits { hits_left plan.now self.old
            ≡ kept_of plan.now self.old.part result.now ++ hits_left plan.now self.new }
        ensures reads { reads_left plan.now self.old
            ≡ reads_left plan.now self.new + length result.now }
        ensures values { values_left plan.now self.new ≡ values_left plan.now self.old }
        ensures steps { steps.new ≡ steps.old + length result.now }
    {
        let count = (self.size - self.next).min(most);
        let run = plan.block(self.part, self.value, self.next, count, steps);
        self.next += count;
        run
    }

    /// Goes on to the posting list of the next value of a ball. Parts that have none left are passed.
    pub fn next_value<const W: usize>(&mut self, plan: &Plan<W>)
        requires place { IsWalkPlace plan.now self.old }
        requires list_done { self.old.next ≡ self.old.size }
        requires some_left { 0 < reads_left plan.now self.old }
        ensures place { IsWalkPlace plan.now self.new }
        ensures hits { hits_left plan.now self.new ≡ hits_left plan.now self.old }
        ensures reads { reads_left plan.now self.new ≡ reads_left plan.now self.old }
        ensures values { values_left plan.now self.old ≡ values_left plan.now self.new + 1 }
    {
        while !self.begin_value(plan) {
            self.pass_part(plan);
        }
    }

    // Goes on to the next part, where this one has nothing left.
    fn pass_part<const W: usize>(&mut self, plan: &Plan<W>)
        requires place { IsWalkPlace plan.now self.old }
        requires list_done { self.old.next ≡ self.old.size }
        requires ball_done { self.old.ball ≡ [] }
        requires some_left { 0 < reads_left plan.now self.old }
        ensures { PassesPart plan.now self.old self.new }
    {
        *self = Walk::at_part(plan, self.part + 1);
    }

    // Takes the next value of the ball and begins its posting list, if there is one.
    fn begin_value<const W: usize>(&mut self, plan: &Plan<W>) -> bool
        requires place { IsWalkPlace plan.now self.old }
        requires list_done { self.old.next ≡ self.old.size }
        ensures begun { result ≡ true → BeginsValue plan.now self.old self.new }
        ensures none { result ≡ false → (self.new ≡ self.old) × (self.old.ball ≡ []) }
    {
        let Some(value) = self.ball.next(plan.flips(self.part)) else {
            return false;
        };
        self.value = value;
        self.next = 0;
        self.size = plan.list_len(self.part, value);
        true
    }

    // At a part of which nothing was read.
    fn at_part<const W: usize>(plan: &Plan<W>, part: usize) -> Walk
        requires { part < length (parts_of plan.now) }
        ensures part { result ≡ part_begun plan.now part }
        ensures place { IsWalkPlace plan.now result }
    {
        Walk {
            part,
            ball: plan.ball(part),
            value: 0,
            next: 0,
            size: 0,
        }
    }
}
