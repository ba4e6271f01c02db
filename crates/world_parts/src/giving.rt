//! Hits that are given.

ghost use Rattle.std.specs.Prelude.{◌≡◌, ◌≤◌, length, is_some};
ghost use Rattle.std.specs.List.{list_any};
ghost use Rattle.hamming_model.specs.declared.limits.TheConstants.{WORDS_MOST};
ghost use Rattle.scatter_gather.specs.Gathering.{seen};
ghost use Rattle.scatter_gather.specs.Kept.{IsGathering};
ghost use Rattle.world_parts.specs.Gathers.{AreAllLawful, GivesHeld, HasSources, TellsNext};

use crate::held::Held;
use hit_source::HitSource;
use scatter_gather::Gather;
use std::snapshot::Snapshot;
use world_model::Told;

/// Gives the next hit of a query that has a source on each of so many shards, where it waits and no other source may have one before it.
/// Else it tells that all were given, and how many, or that a source has to be polled first.
pub fn give_held<const W: usize>(held: &mut Held<W>, shards: usize) -> Told
    requires few_words { W ≤ WORDS_MOST }
    requires sources { HasSources held.old shards }
    ensures { GivesHeld held.old held.new result }
{
    let limit = held.limit;
    let Some(gather) = &mut held.gather else {
        unreachable!()
    };
    let said = next_told(gather, limit, shards);
    held.gathered = Snapshot::of(&held.gather);
    said
}

// Gives the next hit of a gathering of so many sources, or tells why there is none.
fn next_told<H: HitSource>(gather: &mut Gather<H>, limit: u64, shards: usize) -> Told
    requires holds { IsGathering (seen H.asked H.standing gather.old) }
    requires limit { limit ≡ gather.old.limit }
    requires shards { length gather.old.sources ≡ shards }
    ensures tells { TellsNext H.asked H.standing gather.old gather.new result }
    ensures lawful { AreAllLawful H.asked H.standing }
{
    if let Some(hit) = gather.ready() {
        return Told::Gave(hit);
    }
    let count = gather.given();
    if count == limit {
        return Told::Ended { count };
    }
    if !has_floor(gather, shards) {
        return Told::Ended { count };
    }
    Told::NotYet
}

// Whether one of so many sources has a floor.
fn has_floor<H: HitSource>(gather: &Gather<H>, shards: usize) -> bool
    requires { length gather.now.sources ≡ shards }
    ensures { result ≡ list_any (λ source. is_some (H.standing source).floor) gather.now.sources }
{
    for shard in 0..shards {
        if gather.floor(shard).is_some() {
            return true;
        }
    }
    false
}
