//! Polls of sources.

ghost use Rattle.std.specs.Prelude.{◌<◌, ◌≤◌, length};
ghost use Rattle.hamming_model.specs.declared.limits.TheConstants.{WORDS_MOST};
ghost use Rattle.world_parts.specs.Gathers.{AreAllLawful, HasSources, PollsHeld, PollsTold};

use crate::held::Held;
use hit_source::HitSource;
use read_meter::Meters;
use scatter_gather::Gather;
use std::snapshot::Snapshot;
use world_model::Told;

/// Polls the source on a shard of a query that has one on each of so many shards, where it may have the next hit, for at most so many units
/// of work.
pub fn poll_held<const W: usize, L>(
    held: &mut Held<W>,
    shards: usize,
    shard: usize,
    budget: u32,
    meters: &mut Meters<L>,
) -> Told
    requires few_words { W ≤ WORDS_MOST }
    requires sources { HasSources held.old shards }
    requires shard { shard < shards }
    requires budget { 1 ≤ budget }
    ensures { PollsHeld budget shard held.old held.new meters.old meters.new result }
{
    let Some(gather) = &mut held.gather else {
        unreachable!()
    };
    let said = poll_told(gather, shard, budget, meters);
    held.gathered = Snapshot::of(&held.gather);
    said
}

// Polls a source of a gathering, if it is due.
fn poll_told<H: HitSource, L>(
    gather: &mut Gather<H>,
    shard: usize,
    budget: u32,
    meters: &mut Meters<L>,
) -> Told
    requires shard { shard < length gather.old.sources }
    requires budget { 1 ≤ budget }
    ensures polls { PollsTold H.asked H.standing budget shard
        gather.old gather.new meters.old meters.new result }
    ensures lawful { AreAllLawful H.asked H.standing }
{
    let Some(answer) = gather.poll_one(shard, budget, meters) else {
        return Told::Held;
    };
    Told::Polled(answer)
}
