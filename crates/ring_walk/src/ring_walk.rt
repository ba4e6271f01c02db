//! A walk over the rings of a near query, the cheapest next one for each radius.

ghost use Rattle.std.specs.Prelude.{◌≡◌, ◌+◌, ◌-◌, ◌<◌, ◌≤◌, ◌++◌, ◌↔◌, IsTrue, min, length, IfOk};
ghost use Rattle.shard_probe.specs.Probed.{KeepsCode, KeepCodes, code_in};
ghost use Rattle.ring_walk.specs.NearPlanned.{IsNearPlanned, near_bits};
ghost use Rattle.ring_walk.specs.RingWalks.{IsRingPlace, StartsRings, BeginsRing, rows_of_ring};
ghost use Rattle.ring_walk.specs.RingWalks.{hits_of_ring, new_hit, new_of, units_after};

use crate::near_plan::NearPlan;
use ball_walk::Flipped;
use gph_codes::Code;
use hamming_model::Hit;
use read_meter::{NoMemory, Steps};
use std::alloc::Global;
use std::marker::Model;

/// Where a search by rings stands: in the ring of one part, at the posting list of one value.
#[derive(Drop)]
pub struct RingWalk {
    // the units of each part before the ring that is read
    units: Vec<u32>,
    part: usize,
    ball: Flipped,
    // the value whose posting list is read, the next place in it, and its length
    value: u16,
    next: u32,
    size: u32,
    begun: u32,
}

impl Model for RingWalk {
    ghost use Rattle.ring_walk.specs.RingWalks.{RingPlace};

    ghost Value = { RingPlace };

    ghost view = { λ w. record {
      units = w.units.items;
      part = w.part;
      width = w.ball.width;
      ball = w.ball.values;
      value = w.value;
      next = w.next;
      size = w.size;
      begun = w.begun;
    } };
}

impl RingWalk {
    /// A walk that has begun no ring.
    ///
    /// # Errors
    ///
    /// `NoMemory` where there is no memory for a number for each part.
    pub fn start<const W: usize>(alloc: Global, plan: &NearPlan<W>) -> Result<RingWalk, NoMemory>
        ensures starts { IfOk result (λ walk. StartsRings plan.now walk) }
        ensures plan { IsNearPlanned W plan.now }
    {
        let parts = plan.parts();
        let units = vec![in alloc; 0u32; parts]?;
        Ok(RingWalk {
            units,
            part: 0,
            ball: Flipped::ball(plan.flips(0), 0, -1),
            value: 0,
            next: 0,
            size: 0,
            begun: 0,
        })
    }

    /// How many rings were begun.
    pub fn begun(&self) -> u32
        ensures { result ≡ self.now.begun }
    {
        self.begun
    }

    /// Whether the posting list that it is in has a posting left.
    pub fn is_in_list(&self) -> bool
        ensures { IsTrue result ↔ self.now.next < self.now.size }
    {
        self.next < self.size
    }

    /// Reads the postings of its list that are left, or so many, for one step each. What is new among them
    /// is what `new_hit` gives.
    pub fn read<'p, const W: usize, L>(
        &mut self,
        plan: &'p NearPlan<W>,
        most: u32,
        steps: &mut Steps<L>,
    ) -> &'p [(u64, Code<W>)]
        requires place { IsRingPlace plan.now self.old }
        ensures place { IsRingPlace plan.now self.new }
        ensures number { length result.now ≡ min (self.old.size - self.old.next) most }
        ensures stored { KeepCodes W plan.now.version result.now }
        ensures hits { hits_of_ring plan.now self.old
            ≡ new_of plan.now self.old.units result.now ++ hits_of_ring plan.now self.new }
        ensures reads { length (rows_of_ring plan.now self.old)
            ≡ length (rows_of_ring plan.now self.new) + length result.now }
        ensures units { self.new.units ≡ self.old.units }
        ensures values { self.new.ball ≡ self.old.ball }
        ensures after { units_after self.new ≡ units_after self.old }
        ensures begun { self.new.begun ≡ self.old.begun }
        ensures steps { steps.new ≡ steps.old + length result.now }
    {
        let count = (self.size - self.next).min(most);
        let run = plan.block(self.part, self.value, self.next, count, steps);
        self.next += count;
        run
    }

    /// The hit of a posting, if no part had found its code before this ring.
    pub fn new_hit<const W: usize>(
        &self,
        plan: &NearPlan<W>,
        key: u64,
        code: &Code<W>,
    ) -> Option<Hit>
        requires place { IsRingPlace plan.now self.now }
        requires stored { KeepsCode W plan.now.version code.now }
        ensures { result
            ≡ new_hit plan.now self.now.units (key, code_in plan.now.version code.now) }
    {
        plan.new_hit(self.units.as_slice(), key, code)
    }

    /// Goes on to the posting list of the next value of the ring.
    pub fn next_value<const W: usize>(&mut self, plan: &NearPlan<W>)
        requires place { IsRingPlace plan.now self.old }
        requires list_done { self.old.next ≡ self.old.size }
        requires some_left { 0 < length (rows_of_ring plan.now self.old) }
        ensures place { IsRingPlace plan.now self.new }
        ensures rows { rows_of_ring plan.now self.new ≡ rows_of_ring plan.now self.old }
        ensures units { self.new.units ≡ self.old.units }
        ensures values { length self.old.ball ≡ length self.new.ball + 1 }
        ensures after { units_after self.new ≡ units_after self.old }
        ensures begun { self.new.begun ≡ self.old.begun }
    {
        let Some(value) = self.ball.next(plan.flips(self.part)) else {
            unreachable!()
        };
        self.value = value;
        self.next = 0;
        self.size = plan.list_len(self.part, value);
    }

    /// Begins the cheapest next ring, and answers how many postings it has.
    pub fn begin<const W: usize>(&mut self, plan: &NearPlan<W>) -> u64
        requires place { IsRingPlace plan.now self.old }
        requires more { self.old.begun ≤ near_bits plan.now }
        ensures begins { BeginsRing plan.now self.old self.new result }
        ensures plan { IsNearPlanned W plan.now }
    {
        plan.parts();
        self.raise(plan);
        let ring = plan.cheapest(self.units.as_slice());
        self.part = ring.part;
        self.ball = plan.ring(ring.part, self.units[ring.part]);
        self.value = 0;
        self.next = 0;
        self.size = 0;
        self.begun += 1;
        ring.cost
    }

    // Counts the ring that was read among the units.
    fn raise<const W: usize>(&mut self, plan: &NearPlan<W>)
        requires place { IsRingPlace plan.now self.old }
        requires few { self.old.begun ≤ 512 }
        ensures units { self.new.units ≡ units_after self.old }
        ensures begun { self.new.begun ≡ self.old.begun }
    {
        if self.begun > 0 {
            self.units[self.part] += 1;
        }
    }
}
