//! The search of a turn on one shard.

ghost use Rattle.std.specs.Prelude.{◌≡◌, ◌+◌, ◌≤◌, map, IfOk};
ghost use Rattle.hamming_model.specs.declared.limits.TheConstants.{WORDS_MOST};
ghost use Rattle.layout_search.specs.Improves.{AreSamples, plain_sample};
ghost use Rattle.shard_tending.specs.Searched.{tending_samples};
ghost use Rattle.shard_tending.specs.Turns.{FindsTended};

use crate::limits::{TENDING_RADIUS, TENDING_ROUNDS, TENDING_ROWS};
use layout_search::{Found, Sample, improve};
use read_meter::{NoMemory, Steps};
use shard_version::Version;
use std::alloc::Global;

// What a search finds for a version, whose rows of least key give the samples.
pub(crate) fn search_shard<const W: usize, M>(
    alloc: Global,
    version: &Version<W>,
    upkeep: &mut Steps<M>,
) -> Result<Found, NoMemory>
    requires few_words { W ≤ WORDS_MOST }
    ensures found { IfOk result (FindsTended version.now.contents) }
    ensures bound { upkeep.new ≤ upkeep.old + 80 }
{
    let samples = samples_of(alloc, version, upkeep)?;
    improve(alloc, version, samples.as_slice(), TENDING_ROUNDS, upkeep)
}

// The samples of a version: the codes of its rows of least key.
fn samples_of<const W: usize, M>(
    alloc: Global,
    version: &Version<W>,
    upkeep: &mut Steps<M>,
) -> Result<Vec<Sample<W>>, NoMemory>
    ensures plain { IfOk result (λ samples.
        map (plain_sample version.now.contents.layout.bits) samples.items
        ≡ tending_samples version.now.contents.rows) }
    ensures samples { IfOk result (λ samples.
        AreSamples version.now.contents.layout.bits samples.items) }
    ensures bound { upkeep.new ≤ upkeep.old + 16 }
{
    let rows = version.first_rows(TENDING_ROWS, upkeep)?;
    let mut samples = Vec::new(alloc);
    for at in 0..rows.len() {
        let (_key, query) = rows[at];
        samples.push(Sample {
            query,
            tau: TENDING_RADIUS,
        })?;
    }
    Ok(samples)
}
