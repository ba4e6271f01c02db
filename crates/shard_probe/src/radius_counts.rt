//! The counts of a version's rows round a query.

ghost use Rattle.std.specs.Prelude.{◌≡◌, ◌+◌, ◌<◌, ◌≤◌, length, IfOk, pos, negsuc, ◌≤ℤ◌};
ghost use Rattle.threshold_model.specs.Vectors.{units_of};
ghost use Rattle.shard_probe.specs.Counted.{HasCounts, IsTable, count_in};
ghost use Rattle.shard_probe.specs.Probed.{counts_round, parts_in};

use crate::probe::Probe;
use read_meter::NoMemory;
use std::alloc::Global;
use threshold_dp::PartCounts;
use threshold_model::counts_of_rows_are_lawful;

/// How many rows of a version are within each radius of a query, part by part: `tau + 2` numbers for
/// each part, for the radii -1 to tau.
#[derive(Drop)]
pub struct RadiusCounts {
    pub tau: u32,
    pub parts: usize,
    pub counts: Vec<u32>,
    pub ghost lawful: { IsTable counts.items tau parts },
}

impl RadiusCounts {
    /// Reads all counts of each part in one pass over it.
    ///
    /// # Errors
    ///
    /// `NoMemory` where there is no memory for `parts * (tau + 2)` numbers.
    pub fn of<const W: usize>(
        alloc: Global,
        probe: &Probe<W>,
        tau: u32,
    ) -> Result<RadiusCounts, NoMemory>
        requires near { tau ≤ 512 }
        ensures tau { IfOk result (λ table. table.tau ≡ tau) }
        ensures parts { IfOk result (λ table. table.parts ≡ length (parts_in probe.now.version)) }
        ensures counts { IfOk result (λ table. HasCounts table.counts.items tau
            (length (parts_in probe.now.version))
            (counts_round probe.now.version probe.now.stored)) }
    {
        counts_of_rows_are_lawful();
        let parts = probe.parts();
        let width = tau as usize + 2;
        let mut counts = vec![in alloc; 0u32; parts * width]?;
        for part in 0..parts {
            let from = part * width;
            probe.levels(part, &mut counts[from..from + width]);
        }
        Ok(RadiusCounts { tau, parts, counts })
    }

    /// The count of a part, where more units than tau + 1 count as many as these.
    pub fn at(&self, part: usize, units: usize) -> u32
        requires { part < self.now.parts }
        ensures { result ≡ count_in self.now.counts.items self.now.tau part units }
    {
        let most = self.tau as usize + 1;
        self.counts[part * (most + 1) + units.min(most)]
    }
}

impl PartCounts for RadiusCounts {
    ghost use Rattle.shard_probe.specs.Counted.{count_in};

    ghost parts = { λ table. table.parts };

    ghost counts = { λ table. count_in table.counts.items table.tau };

    ghost starts = { λ table part less. table.lawful.starts part less };

    ghost rises = { λ table part less. table.lawful.rises part less };

    fn count(&self, part: usize, radius: i32) -> u32 {
        self.at(part, units_within(radius))
    }
}

// How many distances lie within a radius.
fn units_within(radius: i32) -> usize
    requires low { negsuc 0 ≤ℤ radius }
    requires high { radius ≤ℤ pos 512 }
    ensures { result ≡ units_of radius }
{
    (radius + 1) as usize
}
