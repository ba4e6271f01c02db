//! The plans of a near query on a version.

ghost use Rattle.std.specs.Prelude.{◌≡◌, ℕ, ◌+◌, ◌^◌, ◌<◌, ◌≤◌, ◌⊎◌, List, [], All, IfOk};
ghost use Rattle.std.specs.Prelude.{length, take, drop, sum, slice_index, slice_index_or};
ghost use Rattle.std.specs.Arc.{arc_value};
ghost use Rattle.hamming_model.specs.declared.limits.TheConstants.{PARTS_MOST, WORDS_MOST};
ghost use Rattle.threshold_model.specs.Finding.{part_distances};
ghost use Rattle.ring_model.specs.Rings.{IsCheapest, is_below_some, ring_cost};
ghost use Rattle.shard_probe.specs.Probed.{KeepsCode, KeepCodes, code_in, entry_rows};
ghost use Rattle.ring_walk.specs.NearPlanned.{IsNearPlanned, PlansNear, near_rows, near_bits};
ghost use Rattle.ring_walk.specs.NearPlanned.{near_parts, near_part, near_query, near_counts};
ghost use Rattle.ring_walk.specs.NearPlanned.{near_list, near_ring};
ghost use Rattle.ring_walk.specs.RingWalks.{new_hit};

use ball_walk::{Flipped, Flips};
use gph_codes::Code;
use hamming_model::Hit;
use read_meter::{NoMemory, Steps};
use shard_probe::{Probe, RadiusCounts};
use shard_version::Version;
use std::alloc::Global;
use std::marker::Model;
use std::sync::Arc;
use threshold_dp::{Radii, Thresholds};
use threshold_model::vector_allows_tau_and_one_units;

/// A near query on a version: for each radius the first of the cheapest threshold vectors, and what
/// it costs, with the counts of the rows round the query.
#[derive(Drop)]
pub struct NearPlan<const W: usize> {
    probe: Probe<W>,
    counts: RadiusCounts,
    radii: Radii,
}

impl<const W: usize> Model for NearPlan<W> {
    ghost use Rattle.ring_walk.specs.NearPlanned.{NearPlanned, near_planned_code, near_planned_of};
    ghost use Rattle.ring_walk.specs.NearKept.{IsNearKept};

    ghost Value = { NearPlanned };

    ghost coded = { near_planned_code };

    ghost view = { λ kept. near_planned_of kept.probe.version kept.probe.stored kept.radii };

    ghost invariant = { λ kept. IsNearKept W
        (near_planned_of kept.probe.version kept.probe.stored kept.radii)
        kept.counts.tau kept.counts.parts kept.counts.counts.items };
}

// A part, and how many postings its next ring has.
#[derive(Clone, Copy)]
pub(crate) struct NextRing {
    pub(crate) part: usize,
    pub(crate) cost: u64,
}

impl<const W: usize> NearPlan<W> {
    /// Finds the first of the cheapest threshold vectors for each radius up to the number of bits.
    /// This takes memory for so many counts for each part, and the same again.
    ///
    /// # Errors
    ///
    /// `NoMemory` where there is no memory for that.
    pub fn open(
        alloc: Global,
        version: Arc<Version<W>>,
        query: Code<W>,
    ) -> Result<NearPlan<W>, NoMemory>
        requires few_words { W ≤ WORDS_MOST }
        requires query { KeepsCode W (arc_value version) query }
        ensures { IfOk result (λ plan. PlansNear (arc_value version.entry) query.entry plan) }
    {
        vector_allows_tau_and_one_units();
        let probe = Probe::open(alloc, version, query)?;
        let bits = probe.bits();
        let counts = RadiusCounts::of(alloc, &probe, bits)?;
        let radii = Radii::solve(alloc, bits, probe.parts(), &counts)?;
        Ok(NearPlan {
            probe,
            counts,
            radii,
        })
    }

    /// The number of parts.
    pub fn parts(&self) -> usize
        ensures parts { result ≡ length (near_parts self.now) }
        ensures few { result ≤ PARTS_MOST }
        ensures plan { IsNearPlanned W self.now }
    {
        self.probe.parts()
    }

    /// How many bits a code has.
    pub fn bits(&self) -> u32
        ensures bits { result ≡ near_bits self.now }
        ensures few { result ≤ 512 }
    {
        self.probe.bits()
    }

    /// The rows of the version.
    pub fn rows(&self) -> u64
        ensures { result ≡ length (near_rows self.now) }
    {
        self.probe.rows()
    }

    /// The least cost of a vector for a radius.
    pub fn least(&self, radius: u32) -> u64
        requires { radius ≤ near_bits self.now }
        ensures { result ≡ slice_index self.now.plans.leasts radius }
    {
        self.radii.least(radius)
    }

    /// The least costs of so many radii from 0 on, added up.
    pub fn bound(&self, radii: u32) -> u64
        requires { radii ≤ near_bits self.now + 1 }
        ensures { result ≡ sum (take radii self.now.plans.leasts) }
    {
        let mut sum = 0;
        for radius in 0..radii {
            sum += self.radii.least(radius);
        }
        sum
    }

    /// Leaves the first of the cheapest vectors for a radius in `out`.
    pub fn choose(&self, radius: u32, out: &mut Thresholds)
        requires within { radius ≤ near_bits self.now }
        requires room { length (near_parts self.now) ≤ out.old.room }
        ensures entries { out.new.entries ≡ slice_index_or self.now.plans.vectors radius [] }
        ensures room { out.new.room ≡ out.old.room }
    {
        self.radii.choose(radius, out);
    }

    // Which values of a part are at each distance from one.
    pub(crate) fn flips(&self, part: usize) -> &Flips
        requires { part < length (near_parts self.now) }
        ensures { result.now ≡ length (near_part self.now part) }
    {
        self.probe.flips(part)
    }

    // The values of a part at one distance from the query's.
    pub(crate) fn ring(&self, part: usize, apart: u32) -> Flipped
        requires { part < length (near_parts self.now) }
        ensures values { result.values ≡ near_ring self.now part apart }
        ensures width { result.width ≡ length (near_part self.now part) }
        ensures in_width { All (λ value.
            value < 2 ^ length (near_part self.now part)) result.values }
    {
        self.probe.ring(part, apart)
    }

    // How long the posting list of a part's value is.
    pub(crate) fn list_len(&self, part: usize, value: u16) -> u32
        requires part { part < length (near_parts self.now) }
        requires value { value < 2 ^ length (near_part self.now part) }
        ensures { result ≡ length (near_list self.now part value) }
    {
        self.probe.list_len(part, value)
    }

    // So many postings of a part's value, from a place on, for one step each.
    pub(crate) fn block<L>(
        &self,
        part: usize,
        value: u16,
        from: u32,
        count: u32,
        steps: &mut Steps<L>,
    ) -> &[(u64, Code<W>)]
        requires part { part < length (near_parts self.now) }
        requires value { value < 2 ^ length (near_part self.now part) }
        requires places { from + count ≤ length (near_list self.now part value) }
        ensures rows { entry_rows self.now.version result.now
            ≡ take count (drop from (near_list self.now part value)) }
        ensures stored { KeepCodes W self.now.version result.now }
        ensures steps { steps.new ≡ steps.old + count }
    {
        self.probe.block(part, value, from, count, steps)
    }

    // The hit of a row, if no part finds it at these units.
    pub(crate) fn new_hit(&self, units: &[u32], key: u64, code: &Code<W>) -> Option<Hit>
        requires stored { KeepsCode W self.now.version code.now }
        requires units { length units.now ≡ length (near_parts self.now) }
        ensures { result ≡ new_hit self.now units.now (key, code_in self.now.version code.now) }
    {
        if self.is_met(units, code) {
            return None;
        }
        Some(Hit {
            dist: self.probe.distance(code),
            key,
        })
    }

    // Whether some part finds a code at these units.
    fn is_met(&self, units: &[u32], code: &Code<W>) -> bool
        requires stored { KeepsCode W self.now.version code.now }
        requires units { length units.now ≡ length (near_parts self.now) }
        ensures { let code = code_in self.now.version code.now in
            result ≡ is_below_some units.now
            (part_distances (near_parts self.now) code (near_query self.now)) }
    {
        for part in 0..self.probe.parts() {
            if self.probe.distance_at(part, code) < units[part] {
                return true;
            }
        }
        false
    }

    // The part whose next ring has the fewest postings, the first of several.
    pub(crate) fn cheapest(&self, units: &[u32]) -> NextRing
        requires some { 0 < length units.now }
        requires units { length units.now ≡ length (near_parts self.now) }
        requires within { (part : ℕ) → part < length units.now →
            slice_index units.now part ≤ near_bits self.now }
        ensures cheapest { IsCheapest (near_counts self.now) units.now result.part }
        ensures cost { result.cost ≡ ring_cost (near_counts self.now) units.now result.part }
    {
        let mut best = self.next_ring(units, 0);
        for part in 1..units.len() {
            best = cheaper(best, self.next_ring(units, part));
        }
        best
    }

    // The next ring of a part.
    fn next_ring(&self, units: &[u32], part: usize) -> NextRing
        requires part { part < length (near_parts self.now) }
        requires units { part < length units.now }
        requires within { slice_index units.now part ≤ near_bits self.now }
        ensures part { result.part ≡ part }
        ensures cost { result.cost ≡ ring_cost (near_counts self.now) units.now part }
    {
        let searched = units[part] as usize;
        let fewer = self.counts.at(part, searched);
        let more = self.counts.at(part, searched + 1);
        NextRing {
            part,
            cost: u64::from(more.saturating_sub(fewer)),
        }
    }
}

// The ring with fewer postings, the first of two with as many.
fn cheaper(best: NextRing, ring: NextRing) -> NextRing
    ensures one { ((result.part ≡ best.part) × (result.cost ≡ best.cost))
        ⊎ ((result.part ≡ ring.part) × (result.cost ≡ ring.cost)) }
    ensures first { result.cost ≤ best.cost }
    ensures second { result.cost ≤ ring.cost }
{
    if ring.cost < best.cost {
        return ring;
    }
    best
}
