//! The rings of a near query on a version.

ghost use Rattle.std.specs.Prelude.{◌≡◌, ◌+◌, ◌<◌, ◌≤◌, true, false, [], length, IfOk};
ghost use Rattle.std.specs.Prelude.{slice_index, slice_index_or};
ghost use Rattle.std.specs.Arc.{arc_value};
ghost use Rattle.hamming_model.specs.declared.limits.TheConstants.{WORDS_MOST};
ghost use Rattle.ring_walk.specs.NearPlanned.{PlansNear};
ghost use Rattle.shard_probe.specs.Probed.{KeepsCode};
ghost use Rattle.ring_walk.specs.RingWalks.{StartsRings};
ghost use Rattle.knn_task.specs.Near.{KeepsNew};
ghost use Rattle.knn_task.specs.Rings.{Begins, bound_of};
ghost use Rattle.knn_task.specs.Walked.{IsNearQuery, IsWalked, search_of, ring_at};

use crate::settling::keep;
use gph_codes::Code;
use hit_source::HitWindow;
use read_meter::{NoMemory, Steps};
use ring_walk::{NearPlan, RingWalk};
use shard_version::Version;
use std::alloc::Global;
use std::sync::Arc;
use threshold_dp::Thresholds;
use threshold_model::counts_of_rows_are_lawful;

// The rings of a query on a version: its plans, a walk over the ring of the last radius, how many
// postings of that ring are left, and the vector of the last plan that was asked for.
#[derive(Drop)]
pub(crate) struct NearRings<const W: usize> {
    pub(crate) plan: NearPlan<W>,
    pub(crate) walk: RingWalk,
    left: u64,
    pub(crate) thresholds: Thresholds,
    ghost kept: { IsWalked plan walk left thresholds.room },
}

impl<const W: usize> NearRings<W> {
    // Plans the query for all radii. No ring is begun.
    pub(crate) fn open(
        alloc: Global,
        version: Arc<Version<W>>,
        query: Code<W>,
    ) -> Result<NearRings<W>, NoMemory>
        requires few_words { W ≤ WORDS_MOST }
        requires query { KeepsCode W (arc_value version) query }
        ensures plan { IfOk result (λ rings.
            PlansNear (arc_value version.entry) query.entry rings.plan) }
        ensures starts { IfOk result (λ rings. StartsRings rings.plan rings.walk) }
        ensures query { IfOk result (λ rings. IsNearQuery rings.plan) }
    {
        let plan = NearPlan::open(alloc, version, query)?;
        let thresholds = Thresholds::reserve(alloc, plan.parts())?;
        let walk = RingWalk::start(alloc, &plan)?;
        Ok(NearRings {
            plan,
            walk,
            left: 0,
            thresholds,
        })
    }

    // Begins the cheapest next ring.
    pub(crate) fn begin(&mut self)
        requires done { (ring_at self.old.plan self.old.walk).reads ≡ 0 }
        requires more { self.old.walk.begun ≤ (search_of self.old.plan).bits }
        ensures search { search_of self.new.plan ≡ search_of self.old.plan }
        ensures begun { self.new.walk.begun ≡ self.old.walk.begun + 1 }
        ensures begins { Begins (search_of self.old.plan) self.old.walk.begun
            (ring_at self.old.plan self.old.walk) (ring_at self.new.plan self.new.walk) }
    {
        counts_of_rows_are_lawful();
        self.left = self.walk.begin(&self.plan);
    }

    // How many rings were begun.
    pub(crate) fn begun(&self) -> u32
        ensures { result ≡ self.now.walk.begun }
    {
        self.walk.begun()
    }

    // How many postings of the ring are left.
    pub(crate) fn left(&self) -> u64
        ensures { result ≡ (ring_at self.now.plan self.now.walk).reads }
    {
        self.left
    }

    // Whether the list of a value has a posting left.
    pub(crate) fn is_in_list(&self) -> bool
        ensures { result ≡ (ring_at self.now.plan self.now.walk).in_list }
    {
        self.walk.is_in_list()
    }

    // Reads postings of the list of a value, so many at most, for one step each, and adds the hits that are
    // new of them to those that were found. It answers how many it read.
    pub(crate) fn read<L>(&mut self, most: u32, window: &mut HitWindow, steps: &mut Steps<L>) -> u32
        requires some { 1 ≤ most }
        requires posting { (ring_at self.old.plan self.old.walk).in_list ≡ true }
        requires room { length window.old.found
            + length (ring_at self.old.plan self.old.walk).hits ≤ window.old.capacity }
        ensures search { search_of self.new.plan ≡ search_of self.old.plan }
        ensures begun { self.new.walk.begun ≡ self.old.walk.begun }
        ensures total { (ring_at self.new.plan self.new.walk).total
            ≡ (ring_at self.old.plan self.old.walk).total }
        ensures hits { KeepsNew result window.old window.new
            (ring_at self.old.plan self.old.walk).hits (ring_at self.new.plan self.new.walk).hits }
        ensures reads { (ring_at self.old.plan self.old.walk).reads
            ≡ (ring_at self.new.plan self.new.walk).reads + result }
        ensures values { (ring_at self.new.plan self.new.walk).values
            ≡ (ring_at self.old.plan self.old.walk).values }
        ensures some { 1 ≤ result }
        ensures few { result ≤ most }
        ensures steps { steps.new ≡ steps.old + result }
    {
        let run = self.walk.read(&self.plan, most, steps);
        let count = run.len() as u32;
        self.left -= u64::from(count);
        keep(window, &self.plan, &self.walk, run);
        count
    }

    // Goes on to the next value of the ring.
    pub(crate) fn next_value(&mut self)
        requires list_done { (ring_at self.old.plan self.old.walk).in_list ≡ false }
        requires some_left { 0 < (ring_at self.old.plan self.old.walk).reads }
        ensures search { search_of self.new.plan ≡ search_of self.old.plan }
        ensures begun { self.new.walk.begun ≡ self.old.walk.begun }
        ensures total { (ring_at self.new.plan self.new.walk).total
            ≡ (ring_at self.old.plan self.old.walk).total }
        ensures hits { (ring_at self.new.plan self.new.walk).hits
            ≡ (ring_at self.old.plan self.old.walk).hits }
        ensures reads { (ring_at self.new.plan self.new.walk).reads
            ≡ (ring_at self.old.plan self.old.walk).reads }
        ensures values { (ring_at self.old.plan self.old.walk).values
            ≡ (ring_at self.new.plan self.new.walk).values + 1 }
    {
        self.walk.next_value(&self.plan);
    }

    // The number of rows.
    pub(crate) fn rows(&self) -> u64
        ensures { result ≡ length (search_of self.now.plan).rows }
    {
        self.plan.rows()
    }

    // The number of bits.
    pub(crate) fn bits(&self) -> u32
        ensures bits { result ≡ (search_of self.now.plan).bits }
        ensures few { result ≤ 512 }
    {
        self.plan.bits()
    }

    // Plans for a radius, and answers the least cost.
    pub(crate) fn plan(&mut self, radius: u32) -> u64
        requires { radius ≤ (search_of self.old.plan).bits }
        ensures cost { result ≡ slice_index (search_of self.old.plan).leasts radius }
        ensures vector { self.new.thresholds.entries
            ≡ slice_index_or (search_of self.old.plan).vectors radius [] }
        ensures plan { self.new.plan ≡ self.old.plan }
        ensures walk { self.new.walk ≡ self.old.walk }
    {
        self.plan.choose(radius, &mut self.thresholds);
        self.plan.least(radius)
    }

    // The vector of the last plan.
    pub(crate) fn thresholds(&self) -> &[i32]
        ensures { result.now ≡ self.now.thresholds.entries }
    {
        self.thresholds.entries()
    }

    // The most that is read for so many radii.
    pub(crate) fn bound(&self, radii: u32) -> u64
        requires { radii ≤ (search_of self.now.plan).bits + 1 }
        ensures { result ≡ bound_of (search_of self.now.plan) radii }
    {
        self.plan.bound(radii)
    }
}
