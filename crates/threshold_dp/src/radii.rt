//! The threshold vectors of all radii.

ghost use Rattle.std.specs.Prelude.{◌≡◌, ◌<◌, ◌≤◌, [], IfOk, slice_index, slice_index_or};
ghost use Rattle.hamming_model.specs.declared.limits.TheConstants.{PARTS_MOST};
ghost use Rattle.threshold_dp.specs.Radii.{PlansRadii};

use crate::part_counts::PartCounts;
use crate::scratch::Scratch;
use crate::table::{read_out, solve_parts};
use crate::thresholds::Thresholds;
use read_meter::NoMemory;
use std::alloc::Global;
use std::marker::Model;

/// The first of the cheapest threshold vectors for each radius up to one, and what it costs, from one
/// table: the rows for the greatest radius hold those for all smaller ones.
#[derive(Drop)]
pub struct Radii {
    tau: u32,
    parts: usize,
    costs: Vec<u64>,
    picks: Vec<u16>,
}

impl Model for Radii {
    ghost use Rattle.threshold_dp.specs.Radii.{RadiusPlans, plans_of, HasPlans};

    ghost Value = { RadiusPlans };

    ghost view = { λ r. plans_of r.tau r.parts r.picks.items r.costs.items };

    ghost invariant = { λ r. HasPlans r.tau r.parts r.picks.items r.costs.items };
}

impl Radii {
    /// Solves the table for all radii up to `tau`, as `allocate` does for one, in memory of its own.
    ///
    /// # Errors
    ///
    /// `NoMemory` where there is no memory for it.
    pub fn solve<C: PartCounts>(
        alloc: Global,
        tau: u32,
        parts: usize,
        counts: &C,
    ) -> Result<Radii, NoMemory>
        requires some { 0 < parts }
        requires few { parts ≤ PARTS_MOST }
        requires counted { parts ≤ C.parts counts.now }
        requires near { tau ≤ 512 }
        ensures plans { IfOk result (λ radii. PlansRadii (C.counts counts.now) tau parts radii) }
    {
        let mut scratch = Scratch::reserve(alloc, parts, tau)?;
        solve_parts(
            counts,
            parts,
            scratch.asked.as_mut_slice(),
            scratch.costs.as_mut_slice(),
            scratch.picks.as_mut_slice(),
        );
        Ok(Radii {
            tau,
            parts,
            costs: scratch.costs,
            picks: scratch.picks,
        })
    }

    /// The least cost of a vector for a radius.
    pub fn least(&self, radius: u32) -> u64
        requires { radius ≤ self.now.tau }
        ensures { result ≡ slice_index self.now.leasts radius }
    {
        self.costs[radius as usize + 1]
    }

    /// Leaves the vector for a radius in `out`.
    pub fn choose(&self, radius: u32, out: &mut Thresholds)
        requires within { radius ≤ self.now.tau }
        requires room { self.now.parts ≤ out.old.room }
        ensures entries { out.new.entries ≡ slice_index_or self.now.vectors radius [] }
        ensures room { out.new.room ≡ out.old.room }
    {
        let width = self.tau as usize + 2;
        let units = radius as usize + 1;
        read_out(self.picks.as_slice(), width, units, self.parts, out);
    }
}
