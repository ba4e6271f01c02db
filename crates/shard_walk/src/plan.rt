//! The plan of a range query on a version.

ghost use Rattle.std.specs.Prelude.{◌≡◌, ◌+◌, ◌^◌, ◌<◌, ◌≤◌, All, nat_lt, length, take, drop, IfOk};
ghost use Rattle.std.specs.Arc.{arc_value};
ghost use Rattle.hamming_model.specs.declared.limits.TheConstants.{WORDS_MOST};
ghost use Rattle.threshold_model.specs.Vectors.{units_of};
ghost use Rattle.shard_walk.specs.Planned.{IsPlanned, PlansQuery, IsStored, parts_of, part_of, code_of_plan};
ghost use Rattle.shard_walk.specs.Planned.{list_of, is_found, part_found, kept_hit};
ghost use Rattle.shard_probe.specs.Probed.{KeepsCode, KeepCodes, entry_rows};
ghost use Rattle.shard_walk.specs.Walks.{ball_of};

use ball_walk::{Flipped, Flips};
use gph_codes::Code;
use hamming_model::Hit;
use read_meter::{NoMemory, Steps};
use shard_probe::Probe;
use shard_version::Version;
use std::alloc::Global;
use std::marker::Model;
use std::sync::Arc;
use threshold_dp::{Scratch, Thresholds, allocate};
use threshold_model::least_is_at_most_the_greatest_count;

/// A range query on a version: its threshold vector, the first of the cheapest, and what this costs.
#[derive(Drop)]
pub struct Plan<const W: usize> {
    probe: Probe<W>,
    tau: u32,
    thresholds: Thresholds,
    least: u64,
}

impl<const W: usize> Model for Plan<W> {
    ghost use Rattle.shard_walk.specs.Planned.{IsPlanned, Planned, planned_code, planned_of};

    ghost Value = { Planned };

    ghost coded = { planned_code };

    ghost view = { λ kept. planned_of kept.probe.version kept.probe.stored
        kept.tau kept.thresholds.entries kept.least };

    ghost invariant = { λ kept. IsPlanned W (planned_of kept.probe.version kept.probe.stored
        kept.tau kept.thresholds.entries kept.least) };
}

impl<const W: usize> Plan<W> {
    /// Finds the first of the cheapest threshold vectors. This takes memory for `tau + 2` picks for each part,
    /// and for as many counts and costs of one part.
    ///
    /// # Errors
    ///
    /// `NoMemory` where there is no memory for that.
    pub fn open(
        alloc: Global,
        version: Arc<Version<W>>,
        query: Code<W>,
        tau: u32,
    ) -> Result<Plan<W>, NoMemory>
        requires few_words { W ≤ WORDS_MOST }
        requires query { KeepsCode W (arc_value version) query }
        requires near { tau ≤ (arc_value version).contents.layout.bits }
        ensures { IfOk result (λ plan. PlansQuery (arc_value version.entry) query.entry tau plan) }
    {
        least_is_at_most_the_greatest_count();
        let probe = Probe::open(alloc, version, query)?;
        let parts = probe.parts();
        let mut scratch = Scratch::reserve(alloc, parts, tau)?;
        let mut thresholds = Thresholds::reserve(alloc, parts)?;
        let least = allocate(&mut scratch, tau, parts, &probe, &mut thresholds);
        Ok(Plan {
            probe,
            tau,
            thresholds,
            least,
        })
    }

    /// The least cost of a vector: how many postings will be read.
    pub fn least(&self) -> u64
        ensures least { result ≡ self.now.least }
        ensures plan { IsPlanned W self.now }
    {
        self.least
    }

    /// The radius to search at each part, -1 for one that isn't searched.
    pub fn thresholds(&self) -> &[i32]
        ensures { result.now ≡ self.now.thresholds }
    {
        self.thresholds.entries()
    }

    /// The rows of the version.
    pub fn rows(&self) -> u64
        ensures { result ≡ length self.now.version.contents.rows }
    {
        self.probe.rows()
    }

    // The number of parts.
    pub(crate) fn parts(&self) -> usize
        ensures parts { result ≡ length (parts_of self.now) }
        ensures plan { IsPlanned W self.now }
    {
        self.probe.parts()
    }

    // Which values of a part are at each distance from one.
    pub(crate) fn flips(&self, part: usize) -> &Flips
        requires { part < length (parts_of self.now) }
        ensures { result.now ≡ length (part_of self.now part) }
    {
        self.probe.flips(part)
    }

    // The values of a part that are within its threshold of the query's.
    pub(crate) fn ball(&self, part: usize) -> Flipped
        requires { part < length (parts_of self.now) }
        ensures values { result.values ≡ ball_of self.now part }
        ensures width { result.width ≡ length (part_of self.now part) }
        ensures in_width { All (λ value. value < 2 ^ length (part_of self.now part)) result.values }
        ensures plan { IsPlanned W self.now }
    {
        let radius = self.thresholds.entries()[part];
        self.probe.ball(part, radius)
    }

    // How long the posting list of a part's value is.
    pub(crate) fn list_len(&self, part: usize, value: u16) -> u32
        requires part { part < length (parts_of self.now) }
        requires value { value < 2 ^ length (part_of self.now part) }
        ensures { result ≡ length (list_of self.now part value) }
    {
        self.probe.list_len(part, value)
    }

    // So many postings of a part's value, from a place on, for one step each.
    pub(crate) fn block<L>(
        &self,
        part: usize,
        value: u16,
        from: u32,
        count: u32,
        steps: &mut Steps<L>,
    ) -> &[(u64, Code<W>)]
        requires part { part < length (parts_of self.now) }
        requires value { value < 2 ^ length (part_of self.now part) }
        requires places { from + count ≤ length (list_of self.now part value) }
        ensures rows { entry_rows self.now.version result.now
            ≡ take count (drop from (list_of self.now part value)) }
        ensures stored { KeepCodes W self.now.version result.now }
        ensures steps { steps.new ≡ steps.old + count }
    {
        self.probe.block(part, value, from, count, steps)
    }

    /// The hit of a row, if it is within the radius and the part is the first that finds it.
    pub fn kept(&self, part: usize, key: u64, code: &Code<W>) -> Option<Hit>
        requires { IsStored W self.now code.now }
        ensures { result ≡ kept_hit self.now part (key, code_of_plan self.now code.now) }
    {
        let distance = self.probe.distance(code);
        if distance > self.tau {
            return None;
        }
        if self.first_part(code) != part {
            return None;
        }
        Some(Hit {
            dist: distance,
            key,
        })
    }

    // The first part that finds a code, or the number of parts.
    fn first_part(&self, code: &Code<W>) -> usize
        requires { IsStored W self.now code.now }
        ensures { result ≡ part_found self.now (code_of_plan self.now code.now) }
    {
        let parts = self.probe.parts();
        for part in 0..parts {
            if self.is_found(part, code) {
                return part;
            }
        }
        parts
    }

    // Whether a part finds a code.
    fn is_found(&self, part: usize, code: &Code<W>) -> bool
        requires part { part < length (parts_of self.now) }
        requires stored { IsStored W self.now code.now }
        ensures { result ≡ is_found self.now part (code_of_plan self.now code.now) }
    {
        is_within(
            self.probe.distance_at(part, code),
            self.thresholds.entries()[part],
        )
    }
}

// Whether a distance is within a threshold.
fn is_within(distance: u32, threshold: i32) -> bool
    requires { distance ≤ 512 }
    ensures { result ≡ nat_lt distance (units_of threshold) }
{
    distance as i32 <= threshold
}
