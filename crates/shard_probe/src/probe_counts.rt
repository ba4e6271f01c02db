//! The counts of a version's rows round a query, as an allocation asks them.

use crate::probe::Probe;
use threshold_dp::PartCounts;

impl<const W: usize> PartCounts for Probe<W> {
    ghost use Rattle.std.specs.Prelude.{length};
    ghost use Rattle.shard_probe.specs.CountsLaw.{counts_rise, counts_start};
    ghost use Rattle.shard_probe.specs.Probed.{counts_round, parts_in};

    ghost parts = { λ probe. length (parts_in probe.version) };

    ghost counts = { λ probe. counts_round probe.version probe.stored };

    ghost starts = { λ probe part _. counts_start probe.version probe.stored part };

    ghost rises = { λ probe part _. counts_rise probe.version probe.stored part };

    fn count(&self, part: usize, radius: i32) -> u32 {
        self.within(part, radius)
    }

    fn count_levels(&self, part: usize, out: &mut [u32]) {
        self.levels(part, out);
    }
}
