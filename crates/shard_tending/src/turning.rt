//! The turn of one shard.

ghost use Rattle.std.specs.Prelude.{◌≡◌, ◌+◌, ◌*◌, ◌<◌, ◌≤◌, length};
ghost use Rattle.session_desk.specs.Calls.{KeepsKnown};
ghost use Rattle.session_desk.specs.Desks.{IsDesk};
ghost use Rattle.shard_tending.specs.Turns.{TurnsShard};

use crate::outcome::{ShardTurn, outcome_of};
use crate::pinning::pin_shard;
use crate::placing::build_in;
use crate::sampling::search_shard;
use read_meter::Steps;
use session_desk::Desk;
use shard_rebuild::swap_build;
use shard_version::versions_follow_the_history;
use std::alloc::Global;

// Searches a cheaper layout for a shard, and swaps it in.
pub(crate) fn tend_shard<const W: usize, D: Desk<W>, M>(
    alloc: Global,
    desk: &mut D,
    shard: u32,
    upkeep: &mut Steps<M>,
) -> ShardTurn
    requires shard { shard < (D.desk desk.old).config.shards }
    ensures turns { TurnsShard (D.desk desk.old) (D.desk desk.new) shard result }
    ensures known { KeepsKnown (D.desk desk.new) (D.knows desk.old) (D.knows desk.new) }
    ensures desk { IsDesk W (D.desk desk.new) }
    ensures bound { upkeep.new ≤ upkeep.old + (80 + 3 * length (D.desk desk.new).seen) }
{
    versions_follow_the_history();
    let Ok(version) = pin_shard(desk, shard, upkeep) else {
        return ShardTurn::NoMemory;
    };
    let Ok(found) = search_shard(alloc, &version, upkeep) else {
        return ShardTurn::NoMemory;
    };
    if found.after >= found.before {
        return ShardTurn::Stays;
    }
    let Ok(build) = build_in(alloc, &version, found.layout, upkeep) else {
        return ShardTurn::NoMemory;
    };
    outcome_of(swap_build(alloc, desk, shard, build, upkeep))
}
