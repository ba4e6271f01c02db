//! A query on a version.

ghost use Rattle.std.specs.Prelude.{◌≡◌, ℕ, ◌+◌, ◌^◌, ◌<◌, ◌≤◌, negsuc, ◌≤ℤ◌, All, IfOk};
ghost use Rattle.std.specs.Prelude.{length, take, drop, slice_index};
ghost use Rattle.std.specs.Arc.{arc_value};
ghost use Rattle.hamming_model.specs.Codes.{distance};
ghost use Rattle.hamming_model.specs.declared.limits.TheConstants.{PARTS_MOST, WORDS_MOST};
ghost use Rattle.hamming_model.specs.Layouts.{part_distance, part_value};
ghost use Rattle.ball_walk.specs.Flips.{flipped_ball, flipped_ring};
ghost use Rattle.threshold_model.specs.Vectors.{units_of};
ghost use Rattle.shard_probe.specs.Probed.{KeepsCode, KeepCodes, IsProbed, probed_of};
ghost use Rattle.shard_probe.specs.Probed.{parts_in, part_in, code_in, counts_round, probed_list, entry_rows};

use crate::part_values::values_of;
use ball_walk::{Flipped, Flips};
use count_table::changes_follow_a_list;
use gph_codes::{Code, dist, dist_under, part_distance_is_under_the_mask};
use read_meter::{NoMemory, Steps};
use search_model::stored_rows_search_alike;
use shard_version::{Version, counts_are_of_the_rows};
use std::alloc::Global;
use std::marker::Model;
use std::sync::Arc;

/// A query on a version, with the value of the query at each part. All that a search asks of the
/// version goes through it.
#[derive(Drop)]
pub struct Probe<const W: usize> {
    version: Arc<Version<W>>,
    query: Code<W>,
    values: Vec<u16>,
}

impl<const W: usize> Model for Probe<W> {
    ghost use Rattle.std.specs.Arc.{arc_value};
    ghost use Rattle.shard_probe.specs.Probed.{Probed, probed_code, probed_of};
    ghost use Rattle.shard_probe.specs.Kept.{IsProbe};

    ghost Value = { Probed };

    ghost coded = { probed_code };

    ghost view = { λ kept. probed_of (arc_value kept.version) kept.query };

    ghost invariant = { λ kept. IsProbe W (probed_of (arc_value kept.version) kept.query)
        kept.values.items };
}

impl<const W: usize> Probe<W> {
    /// Reads the values of the query.
    ///
    /// # Errors
    ///
    /// `NoMemory` where there is no memory for a value for each part.
    pub fn open(
        alloc: Global,
        version: Arc<Version<W>>,
        query: Code<W>,
    ) -> Result<Probe<W>, NoMemory>
        requires few_words { W ≤ WORDS_MOST }
        requires query { KeepsCode W (arc_value version) query }
        ensures { IfOk result (λ probe. probe ≡ probed_of (arc_value version.entry) query.entry) }
    {
        let values = values_of(alloc, &version, &query)?;
        Ok(Probe {
            version,
            query,
            values,
        })
    }

    /// The number of parts.
    pub fn parts(&self) -> usize
        ensures parts { result ≡ length (parts_in self.now.version) }
        ensures few { result ≤ PARTS_MOST }
        ensures probed { IsProbed W self.now }
    {
        self.values.len()
    }

    /// The number of rows.
    pub fn rows(&self) -> u64
        ensures { result ≡ length self.now.version.contents.rows }
    {
        self.version.rows()
    }

    /// How many bits a code has.
    pub fn bits(&self) -> u32
        ensures bits { result ≡ self.now.version.contents.layout.bits }
        ensures few { result ≤ 512 }
    {
        self.version.layout().bits()
    }

    /// How many rows are within a radius of the query at a part.
    pub fn within(&self, part: usize, radius: i32) -> u32
        requires part { part < length (parts_in self.now.version) }
        requires radius { negsuc 0 ≤ℤ radius }
        ensures { result ≡ counts_round self.now.version self.now.stored part (units_of radius) }
    {
        counts_are_of_the_rows();
        changes_follow_a_list();
        self.version
            .counts(part as u32)
            .within(self.values[part], radius)
    }

    /// How many rows are nearer to the query at a part than each number of units.
    pub fn levels(&self, part: usize, out: &mut [u32])
        requires { part < length (parts_in self.now.version) }
        ensures { (units : ℕ) → units < length out.old →
            slice_index out.new units ≡ counts_round self.now.version self.now.stored part units }
    {
        counts_are_of_the_rows();
        changes_follow_a_list();
        self.version
            .counts(part as u32)
            .levels(self.values[part], out);
    }

    /// Which values of a part are at each distance from one: a walk over values of the part reads them.
    pub fn flips(&self, part: usize) -> &Flips
        requires { part < length (parts_in self.now.version) }
        ensures { result.now ≡ length (part_in self.now.version part) }
    {
        changes_follow_a_list();
        self.version.counts(part as u32).flips()
    }

    /// The values of a part that are within a radius of the query's, ring by ring.
    pub fn ball(&self, part: usize, radius: i32) -> Flipped
        requires part { part < length (parts_in self.now.version) }
        requires radius { negsuc 0 ≤ℤ radius }
        ensures values { let positions = part_in self.now.version part in
            result.values
            ≡ flipped_ball (part_value (code_in self.now.version self.now.stored) positions)
            (length positions) (units_of radius) }
        ensures width { result.width ≡ length (part_in self.now.version part) }
        ensures in_width { All (λ value.
            value < 2 ^ length (part_in self.now.version part)) result.values }
    {
        Flipped::ball(self.flips(part), self.values[part], radius)
    }

    /// The values of a part at one distance from the query's.
    pub fn ring(&self, part: usize, apart: u32) -> Flipped
        requires part { part < length (parts_in self.now.version) }
        ensures values { let positions = part_in self.now.version part in
            result.values
            ≡ flipped_ring (part_value (code_in self.now.version self.now.stored) positions)
            (length positions) apart }
        ensures width { result.width ≡ length (part_in self.now.version part) }
        ensures in_width { All (λ value.
            value < 2 ^ length (part_in self.now.version part)) result.values }
    {
        Flipped::ring(self.flips(part), self.values[part], apart)
    }

    /// How long the posting list of a part's value is.
    pub fn list_len(&self, part: usize, value: u16) -> u32
        requires part { part < length (parts_in self.now.version) }
        requires value { value < 2 ^ length (part_in self.now.version part) }
        ensures { result ≡ length (probed_list self.now.version part value) }
    {
        self.version.postings(part as u32).len(value)
    }

    /// So many postings of a part's value, from a place on, for one step each.
    pub fn block<L>(
        &self,
        part: usize,
        value: u16,
        from: u32,
        count: u32,
        steps: &mut Steps<L>,
    ) -> &[(u64, Code<W>)]
        requires part { part < length (parts_in self.now.version) }
        requires value { value < 2 ^ length (part_in self.now.version part) }
        requires places { from + count ≤ length (probed_list self.now.version part value) }
        ensures rows { entry_rows self.now.version result.now
            ≡ take count (drop from (probed_list self.now.version part value)) }
        ensures stored { KeepCodes W self.now.version result.now }
        ensures steps { steps.new ≡ steps.old + count }
    {
        self.version
            .postings(part as u32)
            .block(value, from, count, steps)
    }

    /// How far a code is from the query.
    pub fn distance(&self, code: &Code<W>) -> u32
        requires { KeepsCode W self.now.version code.now }
        ensures { result ≡ distance (code_in self.now.version code.now)
            (code_in self.now.version self.now.stored) }
    {
        stored_rows_search_alike();
        dist(code, &self.query)
    }

    /// How far a code is from the query at a part.
    pub fn distance_at(&self, part: usize, code: &Code<W>) -> u32
        requires part { part < length (parts_in self.now.version) }
        requires stored { KeepsCode W self.now.version code.now }
        ensures distance { let version = self.now.version in
            result ≡ part_distance (part_in version part) (code_in version code.now)
            (code_in version self.now.stored) }
        ensures few { result ≤ 512 }
    {
        stored_rows_search_alike();
        part_distance_is_under_the_mask();
        dist_under(self.version.mask(part as u32), code, &self.query)
    }
}
