ghost use Rattle.std.specs.Prelude.{◌≡◌, ◌<◌, ◌≤◌};
ghost use Rattle.threshold_model.specs.Vectors.{IsChoice, IsLeast, cost};

use crate::part_counts::PartCounts;
use crate::scratch::Scratch;
use crate::table::{read_out, solve};
use crate::thresholds::Thresholds;

/// Leaves the threshold vector of the least cost in `out`, the first in lexicographic order where
/// several cost the same, and answers this cost.
///
/// A vector has one whole number of at least -1 for each part, with the sum tau - parts + 1; its
/// cost is the sum over the parts of the count at the part's threshold. This is the threshold
/// allocation of GPH (Qin et al., ICDE 2018), a dynamic program over the parts. It asks each count
/// once, parts * (tau + 2) in all, and does at most parts * (tau + 2)^2 / 2 additions.
pub fn allocate<C: PartCounts>(
    scratch: &mut Scratch,
    tau: u32,
    parts: usize,
    counts: &C,
    out: &mut Thresholds,
) -> u64
    requires some { 0 < parts }
    requires counted { parts ≤ C.parts counts.now }
    requires parts { parts ≤ scratch.old.parts }
    requires tau { tau ≤ scratch.old.tau }
    requires room { parts ≤ out.old.room }

    // The entries are the choice, and the result is its cost, the least one.
    ensures choice { IsChoice (C.counts counts.now) tau parts out.new.entries }
    ensures cost { result ≡ cost (C.counts counts.now) out.new.entries }
    ensures least { IsLeast (C.counts counts.now) tau parts result }

    // What was reserved stays.
    ensures scratch { scratch.new ≡ scratch.old }
    ensures room_stays { out.new.room ≡ out.old.room }
{
    let least = solve(
        counts,
        tau,
        parts,
        scratch.asked.as_mut_slice(),
        scratch.costs.as_mut_slice(),
        scratch.picks.as_mut_slice(),
    );
    let units = tau as usize + 1;
    let width = tau as usize + 2;
    read_out(scratch.picks.as_slice(), width, units, parts, out);
    least
}
